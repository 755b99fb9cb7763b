//! Single fields: bytes, words, numbers, texts.

ghost use Rattle.std.specs.Prelude.{◌≡◌, ◌≤◌, ◌<◌, ◌+◌, ◌-◌, ◌*◌, ◌^◌, ℕ, pos};
ghost use Rattle.std.specs.Prelude.{negsuc, length, slice_index, IfSome, IfOk, drop, take, suc, ◌≤ℤ◌};
ghost use Rattle.dis_format.specs.declared.fault.ReadFault.TheVariants.{Refused};
ghost use Rattle.dis_format.specs.Operands.{one_byte, two_bytes, four_bytes, any, from_zero, short_number, short_offset};
ghost use Rattle.dis_format.specs.Reading.{Gives, byte_at, below_at, bytes_at, word_at, in_form, operand_at, number_at};
ghost use Rattle.dis_format.specs.Reading.{natural_at, utf8_at, before_zero, name_at};

use byteorder::{BigEndian, ByteOrder};
use dis_format::{Cause, ReadFault, Refusal};
use inf_text::Text;
use std::alloc::Global;
use std::str;

/// A field that these bytes begin with is faulty.
pub fn refused(cause: Cause, bytes: &[u8]) -> ReadFault
    ensures { result ≡ Refused (record { cause = cause; left = length bytes.now }) }
{
    ReadFault::Refused(Refusal {
        cause,
        left: bytes.len(),
    })
}

pub fn byte_at(bytes: &[u8]) -> Result<(u8, &[u8]), ReadFault>
    ensures { Gives (λ x. (x.0, x.1.now)) result (byte_at bytes.now) }
{
    match bytes {
        [] => Err(refused(Cause::Short, bytes)),
        [byte, rest @ ..] => Ok((*byte, rest)),
    }
}

/// A byte below a limit.
#[tactic(auto, unfolding(dis_format::specs::Reading::below_at))]
pub fn below_at(limit: u8, bytes: &[u8]) -> Result<(u8, &[u8]), ReadFault>
    ensures { Gives (λ x. (x.0, x.1.now)) result (below_at limit bytes.now) }
{
    let (byte, rest) = byte_at(bytes)?;
    if byte < limit {
        Ok((byte, rest))
    } else {
        Err(refused(Cause::BadOperand, bytes))
    }
}

/// So many bytes.
pub fn bytes_at(count: usize, bytes: &[u8]) -> Result<(&[u8], &[u8]), ReadFault>
    ensures { Gives (λ x. (x.0.now, x.1.now)) result (bytes_at count bytes.now) }
{
    if bytes.len() < count {
        return Err(refused(Cause::Short, bytes));
    }
    Ok(bytes.split_at(count))
}

/// The first bytes, as many as there are of so many.
pub fn front(count: usize, bytes: &[u8]) -> &[u8]
    ensures { result.now ≡ take count bytes.now }
{
    if bytes.len() < count {
        return bytes;
    }
    bytes.split_at(count).0
}

/// A word of 4 bytes, the high one first.
pub fn word_at(bytes: &[u8]) -> Result<(u32, &[u8]), ReadFault>
    ensures { Gives (λ x. (x.0, x.1.now)) result (word_at bytes.now) }
{
    if bytes.len() < 4 {
        return Err(refused(Cause::Short, bytes));
    }
    Ok((BigEndian::read_u32(bytes), &bytes[4..]))
}

/// The number that the low bits are in two's complement, by half of what they count to.
fn signed(half: u32, low: u32) -> i32
    requires half { half < 2 ^ 30 }
    requires low { low < 2 * half }
    ensures small { low < half → result ≡ pos low }
    ensures large { half ≤ low → result ≡ negsuc (2 * half - 1 - low) }
{
    if low < half {
        low as i32
    } else {
        low as i32 - 2 * half as i32
    }
}

fn one_byte_at(bytes: &[u8]) -> Result<(i32, &[u8]), ReadFault>
    requires { slice_index bytes.now 0 < 128 }
    ensures { Gives (λ x. (x.0, x.1.now)) result (in_form one_byte bytes.now) }
{
    match bytes {
        [] => Err(refused(Cause::Short, bytes)),
        [byte, rest @ ..] => Ok((signed(64, u32::from(*byte)), rest)),
    }
}

fn two_bytes_at(bytes: &[u8]) -> Result<(i32, &[u8]), ReadFault>
    requires from { 128 ≤ slice_index bytes.now 0 }
    requires to { slice_index bytes.now 0 < 192 }
    ensures { Gives (λ x. (x.0, x.1.now)) result (in_form two_bytes bytes.now) }
{
    if bytes.len() < 2 {
        return Err(refused(Cause::Short, bytes));
    }
    let number = u32::from(BigEndian::read_u16(bytes));
    Ok((signed(0x2000, number - 0x8000), &bytes[2..]))
}

fn four_bytes_at(bytes: &[u8]) -> Result<(i32, &[u8]), ReadFault>
    requires { 192 ≤ slice_index bytes.now 0 }
    ensures { Gives (λ x. (x.0, x.1.now)) result (in_form four_bytes bytes.now) }
{
    if bytes.len() < 4 {
        return Err(refused(Cause::Short, bytes));
    }
    let number = BigEndian::read_u32(bytes);
    Ok((signed(0x2000_0000, number - 0xC000_0000), &bytes[4..]))
}

/// A number, in the form that the top bits of its first byte say (dis(6), "Operands").
#[tactic(auto, unfolding(dis_format::specs::Reading::operand_at))]
pub fn operand_at(bytes: &[u8]) -> Result<(i32, &[u8]), ReadFault>
    ensures { Gives (λ x. (x.0, x.1.now)) result (operand_at bytes.now) }
{
    match bytes {
        [] => Err(refused(Cause::Short, bytes)),
        [byte, ..] => {
            if *byte < 128 {
                one_byte_at(bytes)
            } else if *byte < 192 {
                two_bytes_at(bytes)
            } else {
                four_bytes_at(bytes)
            }
        }
    }
}

/// A number that may be any.
#[tactic(auto, unfolding(dis_format::specs::Reading::number_at))]
pub fn any_at(bytes: &[u8]) -> Result<(i32, &[u8]), ReadFault>
    ensures { Gives (λ x. (x.0, x.1.now)) result (number_at any bytes.now) }
{
    let (number, rest) = operand_at(bytes)?;
    Ok((number, rest))
}

/// An offset, which isn't below 0.
#[tactic(auto, unfolding(dis_format::specs::Reading::number_at))]
pub fn offset_at(bytes: &[u8]) -> Result<(i32, &[u8]), ReadFault>
    ensures read { Gives (λ x. (x.0, x.1.now)) result (number_at from_zero bytes.now) }
    ensures natural { IfOk result (λ x. pos 0 ≤ℤ x.0) }
{
    let (number, rest) = operand_at(bytes)?;
    if number < 0 {
        return Err(refused(Cause::BadOperand, bytes));
    }
    Ok((number, rest))
}

/// The number of a middle operand.
#[tactic(auto, unfolding(dis_format::specs::Reading::number_at))]
pub fn short_number_at(bytes: &[u8]) -> Result<(i32, &[u8]), ReadFault>
    ensures { Gives (λ x. (x.0, x.1.now)) result (number_at short_number bytes.now) }
{
    let (number, rest) = operand_at(bytes)?;
    if number < -32768 || number > 32767 {
        return Err(refused(Cause::BadOperand, bytes));
    }
    Ok((number, rest))
}

/// The offset of a middle operand.
#[tactic(auto, unfolding(dis_format::specs::Reading::number_at))]
pub fn short_offset_at(bytes: &[u8]) -> Result<(i32, &[u8]), ReadFault>
    ensures { Gives (λ x. (x.0, x.1.now)) result (number_at short_offset bytes.now) }
{
    let (number, rest) = operand_at(bytes)?;
    if number < 0 || number > 65535 {
        return Err(refused(Cause::BadOperand, bytes));
    }
    Ok((number, rest))
}

/// A number that isn't below 0.
fn whole(number: i32) -> u32
    requires { pos 0 ≤ℤ number }
    ensures { pos result ≡ number }
{
    number as u32
}

/// A count, size, pc, type number or offset.
#[tactic(auto, unfolding(dis_format::specs::Reading::natural_at))]
pub fn natural_at(bytes: &[u8]) -> Result<(u32, &[u8]), ReadFault>
    ensures { Gives (λ x. (x.0, x.1.now)) result (natural_at bytes.now) }
{
    let (number, rest) = offset_at(bytes)?;
    Ok((whole(number), rest))
}

/// The characters of so many bytes.
#[tactic(auto, unfolding(dis_format::specs::Reading::utf8_at))]
pub fn utf8_at(alloc: Global, count: usize, bytes: &[u8]) -> Result<(Text, &[u8]), ReadFault>
    ensures { Gives (λ x. (x.0, x.1.now)) result (utf8_at count bytes.now) }
{
    let (own, rest) = bytes_at(count, bytes)?;
    match str::from_utf8(own) {
        Ok(text) => {
            let chars: Vec<char> = text.chars().collect(alloc)?;
            Ok((Text::from_vec(chars), rest))
        }
        Err(_) => Err(refused(Cause::BadData, bytes)),
    }
}

/// How many bytes there are before the first one that is 0.
fn before_zero(bytes: &[u8]) -> Option<usize>
    ensures found { result ≡ before_zero bytes.now }
    ensures inside { IfSome result (λ n. n < length bytes.now) }
{
    for (i, byte) in bytes.iter().enumerate() {
        if *byte == 0 {
            return Some(i);
        }
    }
    None
}

/// The bytes behind so many and one more.
fn behind(bytes: &[u8], count: usize) -> &[u8]
    requires { count < length bytes.now }
    ensures { result.now ≡ drop (suc count) bytes.now }
{
    &bytes[count + 1..]
}

/// The characters up to a byte 0.
#[tactic(auto, unfolding(dis_format::specs::Reading::name_at))]
pub fn name_at(alloc: Global, bytes: &[u8]) -> Result<(Text, &[u8]), ReadFault>
    ensures { Gives (λ x. (x.0, x.1.now)) result (name_at bytes.now) }
{
    let Some(count) = before_zero(bytes) else {
        return Err(refused(Cause::Short, bytes));
    };
    let own = front(count, bytes);
    match str::from_utf8(own) {
        Ok(text) => {
            let chars: Vec<char> = text.chars().collect(alloc)?;
            Ok((Text::from_vec(chars), behind(bytes, count)))
        }
        Err(_) => Err(refused(Cause::BadData, bytes)),
    }
}
