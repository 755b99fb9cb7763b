//! Words of a line. Each is written behind what is written already.

ghost use Rattle.std.specs.Prelude.{◌≡◌, ◌++◌, ◌<◌, OnOk, codes, encode_utf8_all};
ghost use Rattle.std.specs.Fmt.{decimal, signed_decimal};
ghost use Rattle.dis_text.specs.Listing.{hex_byte, hex_digit, hex, signature, head_line};
ghost use Rattle.std.specs.List.{flat_map};

use inf_text::Text;
use itoa::Buffer;
use std::alloc::{AllocError, Global};

/// A number in decimal.
pub fn put_number(out: &mut Vec<u8>, number: usize) -> Result<(), AllocError>
    ensures { OnOk result (out.new.items ≡ out.old.items ++ decimal number) }
{
    let mut buffer = Buffer::new();
    out.extend_from_slice(buffer.format(number).as_bytes())
}

/// A number that may be below 0, in decimal.
pub fn put_signed(out: &mut Vec<u8>, number: i32) -> Result<(), AllocError>
    ensures { OnOk result (out.new.items ≡ out.old.items ++ signed_decimal number) }
{
    let mut buffer = Buffer::new();
    out.extend_from_slice(buffer.format(number).as_bytes())
}

/// A text in UTF-8.
pub fn put_text(alloc: Global, out: &mut Vec<u8>, text: &Text) -> Result<(), AllocError>
    ensures { OnOk result (out.new.items ≡ out.old.items ++ encode_utf8_all text.now) }
{
    let own = text.to_utf8(alloc)?;
    out.extend_from_slice(own.as_slice())
}

fn hex_digit(digit: u8) -> u8
    requires { digit < 16 }
    ensures { result ≡ hex_digit digit }
{
    if digit < 10 {
        b'0' + digit
    } else {
        b'a' - 10 + digit
    }
}

/// Two digits a byte.
fn put_digits(out: &mut Vec<u8>, bytes: &[u8]) -> Result<(), AllocError>
    ensures { OnOk result (out.new.items ≡ out.old.items ++ flat_map hex_byte bytes.now) }
{
    for byte in bytes {
        out.push(hex_digit(*byte / 16))?;
        out.push(hex_digit(*byte % 16))?;
    }
    Ok(())
}

/// Bytes in hexadecimal, or `-` where there are none.
pub fn put_hex(out: &mut Vec<u8>, bytes: &[u8]) -> Result<(), AllocError>
    ensures { OnOk result (out.new.items ≡ out.old.items ++ hex bytes.now) }
{
    match bytes {
        [] => out.extend_from_slice(b"-"),
        _ => put_digits(out, bytes),
    }
}

/// A signature, eight digits.
pub fn put_signature(out: &mut Vec<u8>, sign: u32) -> Result<(), AllocError>
    ensures { OnOk result (out.new.items ≡ out.old.items ++ signature sign) }
{
    put_digits(out, &sign.to_be_bytes())
}

/// A number and a blank.
pub fn put_column(out: &mut Vec<u8>, number: u32) -> Result<(), AllocError>
    ensures { OnOk result (out.new.items ≡ out.old.items ++ (decimal number ++ codes " ")) }
{
    put_number(out, number as usize)?;
    out.extend_from_slice(b" ")
}

/// A line that begins a section: its name and a number.
pub fn put_head(out: &mut Vec<u8>, word: &[u8], number: usize) -> Result<(), AllocError>
    ensures { OnOk result (out.new.items ≡ out.old.items ++ head_line word.now number) }
{
    out.extend_from_slice(word)?;
    out.extend_from_slice(b" ")?;
    put_number(out, number)?;
    out.extend_from_slice(b"\n")
}
