//! The run of a machine, with the console as its server.

ghost use Rattle.std.specs.Prelude.{◌≡◌, ◌≤◌, ◌<◌, ◌⊎◌, ◌+◌, ℕ, List, [], Option, Some, None, true, false, OnOk, OnErr, IfOk};
ghost use Rattle.inf_ports.specs.Outside.{Rose};
ghost use Rattle.dis_machine.specs.Journal.{quanta};
ghost use Rattle.dis_machine.specs.Standing.{codes, objects, waiting, CanGo, HasBegun, SameProgram};
ghost use Rattle.machine_host.specs.Leading.{Leads};
ghost use Rattle.machine_host.specs.Talk.{Talk, Heard, Pends, Calm, SameQuanta, HasEnded, left};

use crate::exchange::{CONSOLE, exchange};
use console_server::Console;
use dis_file::Object;
use dis_machine::{Broken, End, Journal, Machine, Parts};
use inf_ports::Sink;
use inf_text::Text;
use std::alloc::{AllocError, Global};

/// Hands the oldest request to the console and enters its reply, and answers whether there was one.
///
/// # Errors
/// Want of memory.
fn serve_one<K: Sink>(
    alloc: Global,
    machine: &mut Machine,
    console: &mut Console,
    out: &mut K,
) -> Result<bool, AllocError>
    requires able { machine.old.lacks ≡ false }
    requires pends { Pends machine.old }
    ensures went { OnOk result ((start : Option (List ℕ))
        → Talk machine.old (waiting machine.old 1) start (K.held out.old) console.old.failed
        → Talk machine.new (waiting machine.new 1) start (K.held out.new) console.new.failed) }
    ensures pends { OnOk result (Pends machine.new) }
    ensures able { OnOk result (machine.new.lacks ≡ false) }
    ensures less { IfOk result (λ more. more ≡ true → left machine.new < left machine.old) }
    ensures calm { IfOk result (λ more. more ≡ false → Calm machine.new) }
    ensures quanta { OnOk result (SameQuanta machine.old machine.new) }
    ensures stopped { OnErr result ((start : Option (List ℕ))
        → Talk machine.old (waiting machine.old 1) start (K.held out.old) console.old.failed
        → Heard machine.new start (K.held out.new) console.new.failed) }
    ensures same { SameProgram machine.old machine.new }
    ensures failed { console.new.failed ≡ true → (console.old.failed ≡ true) ⊎ Rose (K.faults out.old) (K.faults out.new) }
    ensures later { K.faults out.old ≤ K.faults out.new }
{
    let Some(frame) = machine.next_frame(CONSOLE) else {
        return Ok(false);
    };
    exchange(alloc, machine, console, &frame, out)?;
    Ok(true)
}

/// Hands each request to the console and enters its reply, until none is left.
///
/// # Errors
/// Want of memory.
fn serve<K: Sink>(
    alloc: Global,
    machine: &mut Machine,
    console: &mut Console,
    out: &mut K,
) -> Result<(), AllocError>
    requires able { machine.old.lacks ≡ false }
    requires pends { Pends machine.old }
    ensures went { OnOk result ((start : Option (List ℕ))
        → Talk machine.old (waiting machine.old 1) start (K.held out.old) console.old.failed
        → Talk machine.new (waiting machine.new 1) start (K.held out.new) console.new.failed) }
    ensures able { OnOk result (machine.new.lacks ≡ false) }
    ensures calm { OnOk result (Calm machine.new) }
    ensures quanta { OnOk result (SameQuanta machine.old machine.new) }
    ensures stopped { OnErr result ((start : Option (List ℕ))
        → Talk machine.old (waiting machine.old 1) start (K.held out.old) console.old.failed
        → Heard machine.new start (K.held out.new) console.new.failed) }
    ensures same { SameProgram machine.old machine.new }
    ensures failed { console.new.failed ≡ true → (console.old.failed ≡ true) ⊎ Rose (K.faults out.old) (K.faults out.new) }
    ensures later { K.faults out.old ≤ K.faults out.new }
{
    while serve_one(alloc, machine, console, out)? {}
    Ok(())
}

/// Runs a quantum of a process that is ready, and serves what it asks.
///
/// # Errors
/// Want of memory.
fn go_on<K: Sink>(
    alloc: Global,
    pid: u32,
    machine: &mut Machine,
    console: &mut Console,
    out: &mut K,
) -> Result<(), AllocError>
    requires able { machine.old.lacks ≡ false }
    requires calm { Calm machine.old }
    requires ready { CanGo machine.old pid }
    requires left { machine.old.entered < machine.old.limit }
    ensures went { OnOk result ((start : Option (List ℕ))
        → Talk machine.old (waiting machine.old 1) start (K.held out.old) console.old.failed
        → Talk machine.new (waiting machine.new 1) start (K.held out.new) console.new.failed) }
    ensures able { OnOk result (machine.new.lacks ≡ false) }
    ensures calm { OnOk result (Calm machine.new) }
    ensures quanta { OnOk result (quanta machine.new.journal.items ≡ quanta machine.old.journal.items + 1) }
    ensures stopped { OnErr result ((start : Option (List ℕ))
        → Talk machine.old (waiting machine.old 1) start (K.held out.old) console.old.failed
        → Heard machine.new start (K.held out.new) console.new.failed) }
    ensures same { SameProgram machine.old machine.new }
    ensures failed { console.new.failed ≡ true → (console.old.failed ≡ true) ⊎ Rose (K.faults out.old) (K.faults out.new) }
    ensures later { K.faults out.old ≤ K.faults out.new }
{
    machine.quantum(alloc, pid)?;
    serve(alloc, machine, console, out)
}

/// Runs a machine until it has ended.
///
/// # Errors
/// Want of memory.
fn converse<K: Sink>(
    alloc: Global,
    machine: &mut Machine,
    console: &mut Console,
    out: &mut K,
) -> Result<(), AllocError>
    requires able { machine.old.lacks ≡ false }
    requires calm { Calm machine.old }
    ensures went { OnOk result ((start : Option (List ℕ))
        → Talk machine.old (waiting machine.old 1) start (K.held out.old) console.old.failed
        → Talk machine.new (waiting machine.new 1) start (K.held out.new) console.new.failed) }
    ensures calm { OnOk result (Calm machine.new) }
    ensures ended { OnOk result (HasEnded machine.new) }
    ensures stopped { OnErr result ((start : Option (List ℕ))
        → Talk machine.old (waiting machine.old 1) start (K.held out.old) console.old.failed
        → Heard machine.new start (K.held out.new) console.new.failed) }
    ensures same { SameProgram machine.old machine.new }
    ensures failed { console.new.failed ≡ true → (console.old.failed ≡ true) ⊎ Rose (K.faults out.old) (K.faults out.new) }
    ensures later { K.faults out.old ≤ K.faults out.new }
{
    while machine.ended().is_none() {
        let Some(pid) = machine.ready() else {
            unreachable!();
        };
        go_on(alloc, pid, machine, console, out)?;
    }
    Ok(())
}

/// What a run leaves.
#[derive(Drop)]
pub struct Ran {
    /// How it ended.
    pub end: End,
    pub journal: Journal,
    /// The objects that were run, by their base names.
    pub objects: Vec<(Text, Object)>,
    /// The processes that broke, in order.
    pub broken: Vec<Broken>,
}

/// Runs a machine that has begun to its end, with the console as its server. What the program prints goes to `out`. A fault of `out`
/// doesn't end the run: the console refuses each later write.
pub fn run_machine<K: Sink>(alloc: Global, machine: Machine, out: &mut K) -> Ran
    requires begun { HasBegun (objects machine) machine.limit machine }
    ensures conversation { Leads (codes machine) machine.limit result
        (K.held out.old) (K.held out.new) (K.faults out.old) (K.faults out.new) }
    ensures objects { result.objects.items ≡ objects machine }
    ensures later { K.faults out.old ≤ K.faults out.new }
{
    let mut machine = machine;
    let mut console = Console::new();
    let end = match converse(alloc, &mut machine, &mut console, out) {
        Ok(()) => match machine.ended() {
            Some(end) => end,
            None => unreachable!(),
        },
        Err(_) => End::NoMemory,
    };
    let Parts {
        journal,
        objects,
        broken,
    } = machine.into_parts();
    Ran {
        end,
        journal,
        objects,
        broken,
    }
}
