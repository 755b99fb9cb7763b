//! What stands around a statement.

ghost use Rattle.std.specs.Prelude.{◌≡◌, ◌∷◌, map, IfOk};
ghost use Rattle.limbo_types.specs.View.{view_ty};
ghost use Rattle.limbo_tree.specs.View.{name_of};
ghost use Rattle.limbo_stmt_values.specs.limbo_stating.Around as around;
ghost use Rattle.limbo_heads.specs.Around.{view_turn, view_around};

use inf_text::Text;
use limbo_tree::Name;
use limbo_types::Ty;
use std::alloc::{AllocError, Global};

/// A loop, or else a branch, which is a `case`, an `alt` or a `pick`, with its label where it has one.
#[derive(Clone, Copy)]
pub struct Turn<'a> {
    pub label: &'a Option<Name>,
    pub is_loop: bool,
}

/// What stands around a statement.
#[derive(Drop)]
pub struct Around<'a> {
    /// The answer of the function.
    pub answer: &'a Ty,
    /// The name of its module.
    pub module_name: &'a Text,
    /// The loops and branches around it, the innermost first.
    pub turns: Vec<Turn<'a>>,
    /// The handler in an arm of which it stands.
    pub caught: Option<u32>,
}

// Loops and branches once more, behind another one.
fn behind<'a>(
    alloc: Global,
    label: &'a Option<Name>,
    is_loop: bool,
    turns: &[Turn<'a>],
) -> Result<Vec<Turn<'a>>, AllocError>
    ensures { IfOk result (λ ts. map view_turn ts.items
        ≡ (record { label = name_of label.now; is_loop = is_loop }) ∷ map view_turn turns.now) }
{
    let mut all = Vec::new(alloc);
    all.push(Turn { label, is_loop })?;
    all.extend_from_slice(turns)?;
    Ok(all)
}

// The same once more.
fn same<'a>(alloc: Global, turns: &[Turn<'a>]) -> Result<Vec<Turn<'a>>, AllocError>
    ensures { IfOk result (λ ts. ts.items ≡ turns.now) }
{
    let mut all = Vec::new(alloc);
    all.extend_from_slice(turns)?;
    Ok(all)
}

impl<'a> Around<'a> {
    /// What stands around the body of a loop.
    ///
    /// # Errors
    /// Want of memory.
    pub fn in_loop(&self, alloc: Global, label: &'a Option<Name>) -> Result<Around<'a>, AllocError>
        ensures { IfOk result (λ v. view_around v ≡ around.in_loop (name_of label.now) (view_around self.now)) }
    {
        Ok(Around {
            answer: self.answer,
            module_name: self.module_name,
            turns: behind(alloc, label, true, &self.turns)?,
            caught: self.caught,
        })
    }

    /// What stands around the arms of a `case`, an `alt` or a `pick`.
    ///
    /// # Errors
    /// Want of memory.
    pub fn in_branch(
        &self,
        alloc: Global,
        label: &'a Option<Name>,
    ) -> Result<Around<'a>, AllocError>
        ensures { IfOk result (λ v. view_around v ≡ around.in_branch (name_of label.now) (view_around self.now)) }
    {
        Ok(Around {
            answer: self.answer,
            module_name: self.module_name,
            turns: behind(alloc, label, false, &self.turns)?,
            caught: self.caught,
        })
    }

    /// What stands around the arms of the handler of this number.
    ///
    /// # Errors
    /// Want of memory.
    pub fn in_arm_of(&self, alloc: Global, handler: u32) -> Result<Around<'a>, AllocError>
        ensures { IfOk result (λ v. view_around v ≡ around.in_arm_of handler (view_around self.now)) }
    {
        Ok(Around {
            answer: self.answer,
            module_name: self.module_name,
            turns: same(alloc, &self.turns)?,
            caught: Some(handler),
        })
    }
}
