//! Sets of labels.

ghost use Rattle.std.specs.Prelude.{IfOk};
ghost use Rattle.limbo_defined.specs.Sets.{IsSetOf};

use inf_text::Text;
use std::alloc::{AllocError, Global};
use std::collections::BTreeMap;

/// The set of some labels: a map from each to a place where it stands.
///
/// # Errors
/// Want of memory.
pub fn set_of(alloc: Global, labels: &[Text]) -> Result<BTreeMap<Text, usize>, AllocError>
    ensures { IfOk result (λ set. IsSetOf set labels.now) }
{
    let mut set = BTreeMap::new(alloc);
    for (number, text) in labels.iter().enumerate() {
        set.insert(text.clone()?, number)?;
    }
    Ok(set)
}
