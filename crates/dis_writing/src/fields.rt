//! Single parts: bytes, words, numbers, texts. Each is written behind what is written already.

ghost use Rattle.std.specs.Prelude.{◌≡◌, ◌++◌, ◌*◌, ◌<◌, ◌-◌, ◌^◌, ℕ, pos, negsuc, length, IfOk, IfErr};
ghost use Rattle.dis_format.specs.declared.fault.FileFault.TheVariants.{NoMemory, BadOperand};
ghost use Rattle.dis_format.specs.Operands.{one_byte, two_bytes, four_bytes, form_bytes, magnitude};
ghost use Rattle.dis_format.specs.Operands.{any, from_zero, short_number, short_offset};
ghost use Rattle.dis_format.specs.Parts as part;
ghost use Rattle.dis_format.specs.Writing.{Writes, put};

use dis_format::FileFault;
use inf_text::Text;
use std::alloc::Global;

/// The part that would stand behind these bytes has a number that doesn't fit its field.
fn misfit(out: &[u8]) -> FileFault
    ensures { result ≡ BadOperand (length out.now) }
{
    FileFault::BadOperand { at: out.len() }
}

pub fn put_byte(out: &mut Vec<u8>, byte: u8) -> Result<(), FileFault>
    ensures { Writes (λ _. out.new.items) result (put out.old.items (part.byte byte)) }
{
    out.push(byte)?;
    Ok(())
}

/// A byte below a limit.
pub fn put_below(out: &mut Vec<u8>, limit: u8, byte: u8) -> Result<(), FileFault>
    ensures { Writes (λ _. out.new.items) result (put out.old.items (part.below limit byte)) }
{
    if byte >= limit {
        return Err(misfit(out));
    }
    out.push(byte)?;
    Ok(())
}

pub fn put_bytes(out: &mut Vec<u8>, bytes: &[u8]) -> Result<(), FileFault>
    ensures { Writes (λ _. out.new.items) result (put out.old.items (part.raw bytes.now)) }
{
    out.extend_from_slice(bytes)?;
    Ok(())
}

/// A word of 4 bytes, the high one first.
pub fn put_word(out: &mut Vec<u8>, word: u32) -> Result<(), FileFault>
    ensures { Writes (λ _. out.new.items) result (put out.old.items (part.word word)) }
{
    out.extend_from_slice(&word.to_be_bytes())?;
    Ok(())
}

/// The low bits of a number in two's complement, by half of what they count to.
fn low_bits(half: u32, number: i32) -> u32
    requires half { half < 2 ^ 30 }
    requires fits { magnitude number < half }
    ensures small { result < 2 * half }
    ensures natural { (n : ℕ) → number ≡ pos n → result ≡ n }
    ensures negative { (n : ℕ) → number ≡ negsuc n → result ≡ 2 * half - 1 - n }
{
    if number >= 0 {
        number as u32
    } else {
        (2 * half as i32 + number) as u32
    }
}

fn put_one_byte(out: &mut Vec<u8>, number: i32) -> Result<(), FileFault>
    requires { magnitude number < 64 }
    ensures written { IfOk result (λ _. out.new.items ≡ out.old.items ++ form_bytes one_byte number) }
    ensures failed { IfErr result (λ e. e ≡ NoMemory) }
{
    out.push(low_bits(64, number) as u8)?;
    Ok(())
}

fn put_two_bytes(out: &mut Vec<u8>, number: i32) -> Result<(), FileFault>
    requires { magnitude number < 0x2000 }
    ensures written { IfOk result (λ _. out.new.items ≡ out.old.items ++ form_bytes two_bytes number) }
    ensures failed { IfErr result (λ e. e ≡ NoMemory) }
{
    let spelled = (0x8000 + low_bits(0x2000, number)) as u16;
    out.extend_from_slice(&spelled.to_be_bytes())?;
    Ok(())
}

fn put_four_bytes(out: &mut Vec<u8>, number: i32) -> Result<(), FileFault>
    requires { magnitude number < 0x2000_0000 }
    ensures written { IfOk result (λ _. out.new.items ≡ out.old.items ++ form_bytes four_bytes number) }
    ensures failed { IfErr result (λ e. e ≡ NoMemory) }
{
    let spelled = 0xC000_0000 + low_bits(0x2000_0000, number);
    out.extend_from_slice(&spelled.to_be_bytes())?;
    Ok(())
}

/// A number that may be any, in its shortest form (dis(6), "Operands").
pub fn put_any(out: &mut Vec<u8>, number: i32) -> Result<(), FileFault>
    ensures { Writes (λ _. out.new.items) result (put out.old.items (part.number any number)) }
{
    if (-0x40..0x40).contains(&number) {
        put_one_byte(out, number)
    } else if (-0x2000..0x2000).contains(&number) {
        put_two_bytes(out, number)
    } else if (-0x2000_0000..0x2000_0000).contains(&number) {
        put_four_bytes(out, number)
    } else {
        Err(misfit(out))
    }
}

/// An offset, which isn't below 0.
pub fn put_offset(out: &mut Vec<u8>, offset: i32) -> Result<(), FileFault>
    ensures { Writes (λ _. out.new.items) result (put out.old.items (part.number from_zero offset)) }
{
    if offset < 0 {
        return Err(misfit(out));
    }
    put_any(out, offset)
}

/// The number of a middle operand.
pub fn put_short_number(out: &mut Vec<u8>, number: i32) -> Result<(), FileFault>
    ensures { Writes (λ _. out.new.items) result (put out.old.items (part.number short_number number)) }
{
    if number < -32768 || number > 32767 {
        return Err(misfit(out));
    }
    put_any(out, number)
}

/// The offset of a middle operand.
pub fn put_short_offset(out: &mut Vec<u8>, offset: i32) -> Result<(), FileFault>
    ensures { Writes (λ _. out.new.items) result (put out.old.items (part.number short_offset offset)) }
{
    if offset < 0 || offset > 65535 {
        return Err(misfit(out));
    }
    put_any(out, offset)
}

/// A count, size, pc, type number or offset.
pub fn put_natural(out: &mut Vec<u8>, number: usize) -> Result<(), FileFault>
    ensures { Writes (λ _. out.new.items) result (put out.old.items (part.natural number)) }
{
    if number >= 0x2000_0000 {
        return Err(misfit(out));
    }
    put_any(out, number as i32)
}

/// The first byte of an item and its count, which stands in that byte where it is from 1 to 15.
pub fn put_item_start(out: &mut Vec<u8>, kind: u8, count: u32) -> Result<(), FileFault>
    ensures { Writes (λ _. out.new.items) result (put out.old.items (part.item kind count)) }
{
    if kind >= 16 || count >= 0x2000_0000 {
        return Err(misfit(out));
    }
    if (1..=15).contains(&count) {
        return put_byte(out, 16 * kind + count as u8);
    }
    put_byte(out, 16 * kind)?;
    put_natural(out, count as usize)
}

/// The UTF-8 of a text, and behind it a byte 0.
pub fn put_name(alloc: Global, out: &mut Vec<u8>, name: &Text) -> Result<(), FileFault>
    ensures { Writes (λ _. out.new.items) result (put out.old.items (part.name name.now)) }
{
    let own = name.to_utf8(alloc)?;
    out.extend_from_slice(own.as_slice())?;
    out.push(0)?;
    Ok(())
}
