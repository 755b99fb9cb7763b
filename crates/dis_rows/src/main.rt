//! What bytes are as object files, for rows that are written out by hand: a test of `dis_reading`, `dis_writing` and
//! `dis_text` whose table is data.
//!
//! Each line of the input is a word and bytes in hexadecimal. The program prints what the word asks for of the object
//! that the bytes spell, or the number and the place of the refusal: `code` its instructions, `data` its initial data,
//! `all` the whole, `written` the bytes of its written form, `list` its listing.
#![tactic(auto)]

use dis_file::Object;
use dis_format::FileFault;
use dis_reading::read_object;
use dis_text::listing;
use dis_writing::write_object;
use std::alloc::{AllocError, Global};
use std::io;

/// The number and the place of a refusal.
fn refusal(alloc: Global, fault: FileFault) -> Result<String, AllocError> {
    match fault.number() {
        Some((number, at)) => format!(in alloc; "fault {number} at {at}"),
        None => format!(in alloc; "no memory"),
    }
}

/// The bytes of an object's written form.
fn written(alloc: Global, object: &Object) -> Result<String, AllocError> {
    match write_object(alloc, object) {
        Ok(bytes) => hex::encode(alloc, bytes.as_slice()),
        Err(fault) => refusal(alloc, fault),
    }
}

/// An object's listing.
fn listed(alloc: Global, object: &Object) -> Result<String, AllocError> {
    match String::from_utf8(listing(alloc, object)?) {
        Ok(text) => Ok(text),
        Err(_) => format!(in alloc; "no text"),
    }
}

/// What a line asks for.
fn answer(alloc: Global, line: &str) -> Result<String, AllocError> {
    let Some((part, digits)) = line.split_once(' ') else {
        return format!(in alloc; "no row");
    };
    let Ok(bytes) = hex::decode(alloc, digits) else {
        return format!(in alloc; "no bytes");
    };
    let object = match read_object(alloc, bytes.as_slice()) {
        Ok(object) => object,
        Err(fault) => return refusal(alloc, fault),
    };
    match part {
        "code" => format!(in alloc; "{:?}", object.insts.as_slice()),
        "data" => format!(in alloc; "{:?}", object.items.as_slice()),
        "written" => written(alloc, &object),
        "list" => listed(alloc, &object),
        _ => format!(in alloc; "{object:?}"),
    }
}

fn main(rt: HostRuntime) -> io::Result<()> {
    for line in rt.lines(rt.alloc()) {
        let told = answer(rt.alloc(), line?.as_str())?;
        println!(rt; "{told}")?;
    }
    Ok(())
}
