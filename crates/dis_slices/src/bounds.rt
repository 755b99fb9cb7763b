//! Where elements go.

ghost use Rattle.std.specs.Prelude.{◌≡◌, ◌+◌, ◌*◌, ◌<◌, ◌^◌, IfErr, IfOk, Ok as OkOf, Err as ErrOf};
ghost use Rattle.limbo_values.specs.Texts.{bounds_in};
ghost use Rattle.dis_memory.specs.Arrays.{end_from};
ghost use Rattle.dis_places.specs.declared.fault.Halt.TheVariants as halt;

use dis_places::Halt;
use limbo_values::Raised;

/// The first of so many elements that are copied over these, or what is wrong with that: what is copied stays within.
pub(crate) fn bound_in(count: u32, at: i32, long: u32) -> Result<u32, Raised>
    ensures within { IfOk result (λ k. bounds_in count at (end_from at long) ≡ OkOf (k, k + long)) }
    ensures outside { IfErr result (λ e. bounds_in count at (end_from at long) ≡ ErrOf e) }
{
    let Ok(at) = u32::try_from(at) else {
        return Err(Raised::ArrayBounds);
    };
    if u64::from(at) + u64::from(long) <= u64::from(count) {
        Ok(at)
    } else {
        Err(Raised::ArrayBounds)
    }
}

/// So many times so many. No memory has so many bytes that there is no such number.
pub(crate) fn product(n: u64, size: u32) -> Result<usize, Halt>
    ensures product { IfOk result (λ k. k ≡ n * size) }
    ensures small { IfOk result (λ k. k < 2 ^ 61) }
    ensures fault { IfErr result (λ h. h ≡ halt.NoMemory) }
{
    match n.checked_mul(u64::from(size)) {
        Some(k) => {
            if k < 1 << 61 {
                Ok(k as usize)
            } else {
                Err(Halt::NoMemory)
            }
        }
        None => Err(Halt::NoMemory),
    }
}

/// The same, as so many words or bytes that are copied.
pub(crate) fn few(n: u32, size: u32) -> Result<u32, Halt>
    ensures product { IfOk result (λ k. k ≡ n * size) }
    ensures small { IfOk result (λ k. k < 2 ^ 31) }
    ensures fault { IfErr result (λ h. h ≡ halt.NoMemory) }
{
    match n.checked_mul(size) {
        Some(k) => {
            if k < 1 << 31 {
                Ok(k)
            } else {
                Err(Halt::NoMemory)
            }
        }
        None => Err(Halt::NoMemory),
    }
}
