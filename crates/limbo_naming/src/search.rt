//! The search for what each declaration leads to: a path is gone from a declaration to one through which it leads, and so on, until
//! it is known where the last one leads.

ghost use Rattle.std.specs.Prelude.{◌≡◌, ◌<◌, ◌++◌, ◌∷◌, ℕ, [], List, Some, length, slice_get, true, false, IfOk, OnOk};
ghost use Rattle.limbo_entries.specs.Entries.{Entry, AreOnce};
ghost use Rattle.limbo_entries.specs.View.{entries_of};
ghost use Rattle.limbo_naming.specs.Search.{IsSight, IsSearch, HasState, Tries, AreDone};
ghost use Rattle.limbo_naming.specs.Steps.{StepSays, Settles, Enters, Advances, NoneForgotten};
ghost use Rattle.limbo_naming.specs.declared.state.Found.TheVariants.{Needs};
ghost use Rattle.limbo_naming.specs.declared.state.State.TheVariants.{NotYet, Entered};

use crate::sight::Sight;
use crate::state::{Found, State};
use limbo_entries::Table;
use std::alloc::{AllocError, Global};

// What is found of a declaration so far.
fn look(table: &Table, implemented: u32, states: &[State], number: u32) -> Found
    requires sight { IsSight (entries_of table.now.entries.items) implemented states.now }
    requires there { number < length table.now.entries.items }
    ensures { Tries (entries_of table.now.entries.items) implemented states.now number result }
{
    let sight = Sight {
        table,
        implemented,
        states,
    };
    sight.attempt(number)
}

fn is_entered(state: State) -> bool
    ensures yes { result ≡ true → state ≡ Entered }
    ensures no { result ≡ false → state ≡ Entered → ⊥ }
{
    match state {
        State::Entered => true,
        State::NotYet => false,
        State::Done(_found) => false,
    }
}

// A step of the search: it is known what the last one on the path leads to, or it leads through one that wasn't looked at.
#[derive(Clone, Copy)]
enum Step {
    Known(Option<u32>),
    On(u32),
}

// The next step, by what is found of the last one on the path.
fn next_step(states: &[State], found: Found) -> Step
    requires there { (k : ℕ) → found ≡ Needs k → k < length states.now }
    ensures { (es : List Entry) (m : ℕ) (path front : List ℕ) (top : ℕ) → IsSearch es m states.now path → path ≡ front ++ top ∷ []
        → Tries es m states.now top found → StepSays es m states.now top result }
{
    match found {
        Found::Named(found) => Step::Known(Some(found)),
        Found::Needs(next) => {
            if is_entered(states[next as usize]) {
                return Step::Known(None);
            }
            Step::On(next)
        }
        _ => Step::Known(None),
    }
}

// It is known what the last one on the path leads to.
fn settle(states: &mut Vec<State>, path: &mut Vec<u32>, to: Option<u32>)
    requires some { 0 < length path.old.items }
    requires there { (i j : ℕ) → slice_get path.old.items i ≡ Some j → j < length states.old.items }
    ensures { Settles states.old.items path.old.items to states.new.items path.new.items }
{
    let top = path[path.len() - 1];
    states[top as usize] = State::Done(to);
    let _ = path.pop();
}

// Goes on to one that wasn't looked at.
fn enter(states: &mut Vec<State>, path: &mut Vec<u32>, next: u32) -> Result<(), AllocError>
    requires there { next < length states.old.items }
    ensures { OnOk result (Enters states.old.items path.old.items next states.new.items path.new.items) }
{
    states[next as usize] = State::Entered;
    path.push(next)?;
    Ok(())
}

// Goes on to a declaration through which the last one leads, or says where the last one leads.
fn advance(
    table: &Table,
    implemented: u32,
    states: &mut Vec<State>,
    path: &mut Vec<u32>,
) -> Result<(), AllocError>
    requires once { AreOnce (entries_of table.now.entries.items) }
    requires some { 0 < length path.old.items }
    requires search { IsSearch (entries_of table.now.entries.items) implemented states.old.items path.old.items }
    ensures { OnOk result (Advances (entries_of table.now.entries.items) implemented states.old.items path.old.items
        states.new.items path.new.items) }
{
    let top = path[path.len() - 1];
    let found = look(table, implemented, states, top);
    match next_step(states, found) {
        Step::Known(to) => {
            settle(states, path, to);
            Ok(())
        }
        Step::On(next) => enter(states, path, next),
    }
}

// Finds out what a declaration that wasn't looked at leads to.
fn explore(
    alloc: Global,
    table: &Table,
    implemented: u32,
    number: u32,
    states: &mut Vec<State>,
) -> Result<(), AllocError>
    requires once { AreOnce (entries_of table.now.entries.items) }
    requires fresh { HasState states.old.items number NotYet }
    requires search { IsSearch (entries_of table.now.entries.items) implemented states.old.items [] }
    ensures search { OnOk result (IsSearch (entries_of table.now.entries.items) implemented states.new.items []) }
    ensures seen { OnOk result (NoneForgotten states.old.items states.new.items) }
    ensures here { OnOk result (HasState states.new.items number NotYet → ⊥) }
{
    states[number as usize] = State::Entered;
    let mut path = vec![in alloc; number]?;
    'going: while !path.is_empty() {
        advance(table, implemented, states, &mut path)?;
    }
    Ok(())
}

fn is_unseen(state: State) -> bool
    ensures yes { result ≡ true → state ≡ NotYet }
    ensures no { result ≡ false → state ≡ NotYet → ⊥ }
{
    match state {
        State::NotYet => true,
        State::Entered => false,
        State::Done(_found) => false,
    }
}

/// What each declaration of a table leads to, where the implemented module has this number.
///
/// # Errors
/// Want of memory.
pub(crate) fn search(
    alloc: Global,
    table: &Table,
    implemented: u32,
) -> Result<Vec<State>, AllocError>
    requires once { AreOnce (entries_of table.now.entries.items) }
    ensures sight { IfOk result (λ states. IsSight (entries_of table.now.entries.items) implemented states.items) }
    ensures done { IfOk result (λ states. AreDone states.items) }
{
    let mut states = vec![in alloc; State::NotYet; table.entries.len()]?;
    for number in 0..table.entries.len() as u32 {
        if is_unseen(states[number as usize]) {
            explore(alloc, table, implemented, number, &mut states)?;
        }
    }
    Ok(states)
}
