//! Machines of one object.

use dis_file::Object;
use dis_machine::{Machine, Setup, StartFault};
use inf_text::Text;
use std::alloc::{AllocError, Global};
use std::process::Abort;

// A machine that may have three quanta.
pub(crate) fn start(alloc: Global, object: Object) -> Result<Machine, StartFault> {
    let objects = vec![in alloc; (Text::new(alloc), object)]?;
    Machine::start(alloc, Setup { objects, limit: 3 })
}

// A quantum.
pub(crate) fn go_on(
    rt: &impl Abort,
    alloc: Global,
    machine: &mut Machine,
) -> Result<(), AllocError> {
    assert!(rt; !machine.lacks && machine.entered < machine.limit);
    assert!(rt; machine.is_ready(1));
    machine.quantum(alloc, 1)
}
