ghost use Rattle.std.specs.Prelude.{IfOk, IfErr, OnOk};
ghost use Rattle.limbo_includes.specs.Includes.{Flattens, IsTooDeep, LacksAt, IsWhole, IsTwice};
ghost use Rattle.limbo_includes.specs.Refusals.{IfTooDeep, IfNoInclude, IfTwice};
ghost use Rattle.limbo_includes.specs.View.{given, view_row};

use crate::fault::IncludeFault;
use crate::included::{Included, Standing};
use crate::nesting::check_nesting;
use crate::row::{Row, Seen, put_all};
use crate::shelf::Shelf;
use inf_text::Text;
use limbo_tree::Source;
use std::alloc::Global;

/// The declarations of a source and of the texts that it includes in one row: in the place of each include stands what the text
/// that it names flattens to (Limbo Language Reference, include).
///
/// # Errors
/// Want of memory. `TooDeep` exactly where includes nest more than 16 deep, whether or not the deepest names a text. Else
/// `NoInclude` exactly where an include names a text that isn't there. Else `Twice` only where a text that declares something
/// is included twice, at once.
pub fn flatten<'a>(
    alloc: Global,
    path: &'a Text,
    source: &'a Source,
    included: &'a [Included],
) -> Result<Vec<Standing<'a>>, IncludeFault>
    ensures flat { IfOk result (λ row. Flattens included.now path.now source.now.tops.items (view_row row.items)) }
    ensures whole { OnOk result (IsWhole (given path.now source.now included.now)) }
    ensures too_deep { IfErr result (λ e. IfTooDeep e (IsTooDeep (given path.now source.now included.now))) }
    ensures lacks { IfErr result (λ e. IfNoInclude e (λ p at. LacksAt (given path.now source.now included.now) p at)) }
    ensures lacks_only { IfErr result (λ e. IfNoInclude e (λ p at. IsTooDeep (given path.now source.now included.now) → ⊥)) }
    ensures twice { IfErr result (λ e. IfTwice e (IsTwice (given path.now source.now included.now))) }
    ensures twice_only { IfErr result (λ e. IfTwice e (IsWhole (given path.now source.now included.now))) }
{
    let shelf = Shelf::new(alloc, included)?;
    check_nesting(alloc, &shelf, path, source)?;
    let mut row = Row {
        out: Vec::new(alloc),
        seen: vec![in alloc; Seen::NotYet; included.len()]?,
    };
    put_all(alloc, &shelf, path, &source.tops, 0, &mut row)?;
    let Row { out, seen: _ } = row;
    Ok(out)
}
