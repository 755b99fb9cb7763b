//! What a `break` and a `continue` speak of.

ghost use Rattle.std.specs.Prelude.{◌≡◌, ◌↔◌, Some, map, IsTrue, IfSome, IfNone};
ghost use Rattle.limbo_tree.specs.View.{name_of};
ghost use Rattle.limbo_refusals.specs.Refusals.{NoneIs};
ghost use Rattle.limbo_stmt_values.specs.limbo_stating.Around.{Innermost, IsLabelled, IsContinued};
ghost use Rattle.limbo_heads.specs.Around.{view_turn};

use crate::around::Turn;
use inf_text::Text;
use limbo_tree::Name;

// Whether a label is this one.
fn is_label(own: &Option<Name>, asked: &Text) -> bool
    ensures { IsTrue result ↔ (name_of own.now ≡ Some asked.now) }
{
    match own {
        Some(name) => name.text == *asked,
        None => false,
    }
}

// Whether a `break` with this label, or without one, may speak of a loop or branch.
fn is_labelled(turn: &Turn, label: &Option<Name>) -> bool
    ensures { IsTrue result ↔ IsLabelled (name_of label.now) (view_turn turn.now) }
{
    match label {
        Some(asked) => is_label(turn.label, &asked.text),
        None => true,
    }
}

// The same of a `continue`.
fn is_continued(turn: &Turn, label: &Option<Name>) -> bool
    ensures { IsTrue result ↔ IsContinued (name_of label.now) (view_turn turn.now) }
{
    turn.is_loop && is_labelled(turn, label)
}

/// The place of what a `break` speaks of: the innermost loop or branch, or the innermost with its label.
pub fn innermost_labelled(turns: &[Turn], label: &Option<Name>) -> Option<usize>
    ensures found { IfSome result (λ n. Innermost (map view_turn turns.now) (IsLabelled (name_of label.now)) n) }
    ensures none { IfNone result (NoneIs (Innermost (map view_turn turns.now) (IsLabelled (name_of label.now)))) }
{
    for (place, turn) in turns.iter().enumerate() {
        if is_labelled(turn, label) {
            return Some(place);
        }
    }
    None
}

/// The place of what a `continue` speaks of: the innermost loop, or the innermost with its label.
pub fn innermost_continued(turns: &[Turn], label: &Option<Name>) -> Option<usize>
    ensures found { IfSome result (λ n. Innermost (map view_turn turns.now) (IsContinued (name_of label.now)) n) }
    ensures none { IfNone result (NoneIs (Innermost (map view_turn turns.now) (IsContinued (name_of label.now)))) }
{
    for (place, turn) in turns.iter().enumerate() {
        if is_continued(turn, label) {
            return Some(place);
        }
    }
    None
}
