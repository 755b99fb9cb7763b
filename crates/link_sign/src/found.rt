//! A clash that was found.

ghost use Rattle.std.specs.Prelude.{◌≡◌, IfOk};

use std::alloc::{AllocError, Global};

/// Two different texts of functions with one signature.
#[derive(Drop)]
pub struct Clash {
    pub first: Vec<u8>,
    pub second: Vec<u8>,
    pub sign: u32,
}

/// Two texts, once more.
///
/// # Errors
/// Want of memory.
pub fn told(alloc: Global, first: &[u8], second: &[u8], sign: u32) -> Result<Clash, AllocError>
    ensures first { IfOk result (λ c. c.first.items ≡ first.now) }
    ensures second { IfOk result (λ c. c.second.items ≡ second.now) }
    ensures sign { IfOk result (λ c. c.sign ≡ sign) }
{
    Ok(Clash {
        first: Vec::from_slice(alloc, first)?,
        second: Vec::from_slice(alloc, second)?,
        sign,
    })
}
