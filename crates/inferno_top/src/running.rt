//! Runs a program's object.

ghost use Rattle.std.specs.Prelude.{◌≡◌, ◌≤◌, ◌↔◌, IfOk, IsTrue, map};
ghost use Rattle.inf_ports.specs.Outside.{Rose};
ghost use Rattle.limbo_typed.specs.Typed.{Module};
ghost use Rattle.dis_machine.specs.Journal.{State};
ghost use Rattle.dis_machine.specs.Ends.{breaches};
ghost use Rattle.dis_machine.specs.Kept.{view_broken};
ghost use Rattle.inferno_top.specs.Running.{IsCompiled, IsOwnCause, IsOwnEnd, IsRun, IsStarted, Says};

use crate::cause::{Cause, Left};
use dis_file::Object;
use dis_machine::{Broken, End, Machine, Setup, StartFault};
use inf_ports::Sink;
use inf_text::Text;
use inferno_command::base_name;
use machine_host::{Ran, run_machine};
use object_bytes::reread;
use std::alloc::{AllocError, Global};

/// Whether a count of faults has risen.
pub fn has_risen(before: u64, now: u64) -> bool
    ensures { IsTrue result ↔ Rose before now }
{
    before.saturating_add(1) <= now
}

/// Starts a machine on what the bytes of the object of the file at the path spell, for at most so many quanta.
///
/// # Errors
/// Want of memory.
fn start(alloc: Global, path: &Text, object: &Object, limit: u64) -> Result<Machine, AllocError>
    requires compiled { (m : Module) × IsCompiled m object.now }
    requires bounded { (1 ≤ limit) × (limit ≤ 10000000) }
    ensures { IfOk result (IsStarted limit path.now object.now) }
{
    let name = base_name(alloc, path)?;
    let read = reread(alloc, object)?;
    let mut objects = Vec::with_capacity(alloc, 1)?;
    objects.push_reserved((name, read));
    let setup = Setup { objects, limit };
    match Machine::start(alloc, setup) {
        Ok(machine) => Ok(machine),
        Err(StartFault::NoMemory) => Err(AllocError),
        Err(StartFault::Malformed) => unreachable!(),
    }
}

/// What the end of a run for at most so many quanta is told as, where it is one that a program's run can have.
fn cause_of(end: End, broken: Vec<Broken>, limit: u64) -> Cause
    requires own { IsOwnEnd end }
    ensures says { (t : State) → map view_broken broken.items ≡ breaches t.trace → Says limit t end result }
    ensures own { IsOwnCause result }
{
    match end {
        End::Done => Cause::Done,
        End::Broke => Cause::Broke { broken },
        End::Limit => Cause::Limit { quanta: limit },
        End::NoMemory => Cause::NoMemory,
        End::Stuck | End::HeapFull | End::Faulted { .. } => unreachable!(),
    }
}

/// Runs the object of the program in the file at the path, as its bytes spell it, for at most so many quanta, and writes what it prints on
/// `out`.
///
/// The cause is how the run ended, or want of memory, before a machine was started or later.
pub fn run_program<K: Sink>(
    alloc: Global,
    path: &Text,
    object: Object,
    limit: u64,
    out: &mut K,
) -> (Cause, Left)
    requires compiled { (m : Module) × IsCompiled m object }
    requires bounded { (1 ≤ limit) × (limit ≤ 10000000) }
    ensures run { (m : Module) → IsCompiled m object → IsRun limit path.now m result.1.journal result.1.objects.items
        (K.held out.old) (K.held out.new) (K.faults out.old) (K.faults out.new) result.0 }
    ensures own { IsOwnCause result.0 }
    ensures later { K.faults out.old ≤ K.faults out.new }
{
    let Ok(machine) = start(alloc, path, &object, limit) else {
        return (Cause::NoMemory, Left::nothing(alloc));
    };
    let Ran {
        end,
        journal,
        objects,
        broken,
    } = run_machine(alloc, machine, out);
    let left = Left {
        journal: Some(journal),
        objects,
    };
    (cause_of(end, broken, limit), left)
}
