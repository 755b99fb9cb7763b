//! One request of the machine, and the console's reply.

ghost use Rattle.std.specs.Prelude.{◌≡◌, ◌≤◌, ◌<◌, ◌⊎◌, ℕ, List, [], ◌∷◌, Option, Some, None, true, false, OnOk, OnErr};
ghost use Rattle.inf_ports.specs.Outside.{Rose};
ghost use Rattle.dis_places.specs.declared.process.Asking.{Asking};
ghost use Rattle.sys_print.specs.Sent.{IsSent};
ghost use Rattle.dis_machine.specs.declared.doing.Doing.TheVariants as doing;
ghost use Rattle.dis_machine.specs.declared.reply.ReplyFault.TheVariants.{NoMemory};
ghost use Rattle.dis_machine.specs.Standing.{waiting, SameProgram};
ghost use Rattle.machine_host.specs.Talk.{Talk, Heard, Pends, SameQuanta, left, left_of};

use console_server::{Console, answer};
use dis_machine::{Machine, ReplyFault};
use inf_ports::Sink;
use std::alloc::{AllocError, Global};

/// The console's link.
pub(crate) const CONSOLE: u32 = 1;

// The console's reply is never refused, so only memory can be wanting.
fn want_of_memory(fault: ReplyFault) -> AllocError
    requires { fault ≡ NoMemory }
{
    drop(fault);
    AllocError
}

/// Hands a request to the console, and enters its reply.
///
/// # Errors
/// Want of memory.
pub(crate) fn exchange<K: Sink>(
    alloc: Global,
    machine: &mut Machine,
    console: &mut Console,
    frame: &[u8],
    out: &mut K,
) -> Result<(), AllocError>
    requires asking { machine.old.running.doing ≡ doing.Asking }
    requires handed { waiting machine.old 1 ≡ [] }
    requires sent { (a : Asking) × (machine.old.running.process.printing ≡ Some a) × IsSent frame.now a.writing.tag a.writing.asked }
    requires able { machine.old.lacks ≡ false }
    ensures went { OnOk result ((start : Option (List ℕ)) → Talk machine.old (frame.now ∷ []) start (K.held out.old) console.old.failed
        → Talk machine.new (waiting machine.new 1) start (K.held out.new) console.new.failed) }
    ensures pends { OnOk result (Pends machine.new) }
    ensures less { OnOk result (left machine.new < left_of machine.old.running.process.printing) }
    ensures stopped { OnErr result ((start : Option (List ℕ)) → Talk machine.old (frame.now ∷ []) start (K.held out.old) console.old.failed
        → Heard machine.new start (K.held out.new) console.new.failed) }
    ensures able { OnOk result (machine.new.lacks ≡ false) }
    ensures quanta { OnOk result (SameQuanta machine.old machine.new) }
    ensures same { SameProgram machine.old machine.new }
    ensures failed { console.new.failed ≡ true → (console.old.failed ≡ true) ⊎ Rose (K.faults out.old) (K.faults out.new) }
    ensures later { K.faults out.old ≤ K.faults out.new }
{
    let reply = answer(alloc, console, frame, out)?;
    if let Err(fault) = machine.take_reply(alloc, CONSOLE, reply) {
        return Err(want_of_memory(fault));
    }
    Ok(())
}
