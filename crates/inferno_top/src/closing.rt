ghost use Rattle.std.specs.Prelude.{◌≡◌, ◌≤◌, ◌⊎◌, ◌++◌, ◌∷◌, [], map, IfOk, string_bytes, decimal, codes, encode_utf8_all};
ghost use Rattle.dis_machine.specs.Kept.{view_broken};
ghost use Rattle.dis_format.specs.Answers.{refusal_number};
ghost use Rattle.inferno_top.specs.Closing.{line, closing_line, closing_lines, told, told_refusal, broken_line, broken_lines};
ghost use Rattle.inferno_top.specs.Closing.{clash_line, IsWritten};

use crate::cause::{Cause, SourceFault};
use dis_format::FileFault;
use dis_machine::Broken;
use inf_ports::{Sink, write_whole};
use inf_text::Text;
use inferno_stats::Stats;
use link_sign::Clash;
use std::alloc::{AllocError, Global};

/// A line of the command: its name, words, a path where one belongs there, and what follows it.
fn line_with(
    alloc: Global,
    before: &[u8],
    path: &Text,
    behind: &[u8],
) -> Result<Vec<u8>, AllocError>
    ensures { IfOk result (λ bytes. bytes.items ≡ line (before.now ++ encode_utf8_all path.now ++ behind.now)) }
{
    let spelling = path.to_utf8(alloc)?;
    let mut bytes = Vec::from_slice(alloc, b"inferno: ")?;
    bytes.extend_from_slice(before)?;
    bytes.extend_from_slice(spelling.as_slice())?;
    bytes.extend_from_slice(behind)?;
    bytes.push(b'\n')?;
    Ok(bytes)
}

/// The decimal digits of a number.
fn digits(alloc: Global, number: u64) -> Result<String, AllocError>
    ensures { IfOk result (λ text. string_bytes text ≡ decimal number) }
{
    format!(in alloc; "{number}")
}

/// What stands behind the file of a refusal: its line and column, and its number.
fn told(alloc: Global, fault: SourceFault) -> Result<Vec<u8>, AllocError>
    ensures { IfOk result (λ bytes. bytes.items ≡ told fault) }
{
    let place = fault.place();
    let line = digits(alloc, u64::from(place.line))?;
    let col = digits(alloc, u64::from(place.col))?;
    let number = digits(alloc, u64::from(fault.number()))?;
    let mut bytes = Vec::from_slice(alloc, b":")?;
    bytes.extend_from_slice(line.as_bytes())?;
    bytes.extend_from_slice(b":")?;
    bytes.extend_from_slice(col.as_bytes())?;
    bytes.extend_from_slice(b": fault ")?;
    bytes.extend_from_slice(number.as_bytes())?;
    Ok(bytes)
}

/// What stands behind the file of a refused object: the refusal's number and its place.
fn told_refusal(alloc: Global, fault: FileFault) -> Result<Vec<u8>, AllocError>
    ensures { IfOk result (λ bytes. bytes.items ≡ told_refusal (refusal_number fault)) }
{
    let Some((number, at)) = fault.number() else {
        return Ok(Vec::new(alloc));
    };
    let number = digits(alloc, u64::from(number))?;
    let at = digits(alloc, at as u64)?;
    let mut bytes = Vec::from_slice(alloc, b": fault ")?;
    bytes.extend_from_slice(number.as_bytes())?;
    bytes.extend_from_slice(b" at ")?;
    bytes.extend_from_slice(at.as_bytes())?;
    Ok(bytes)
}

/// The line about a process that broke.
fn broken_line(alloc: Global, broken: &Broken) -> Result<Vec<u8>, AllocError>
    ensures { IfOk result (λ bytes. bytes.items ≡ broken_line (view_broken broken.now)) }
{
    let pid = digits(alloc, u64::from(broken.pid))?;
    let mut words = Vec::from_slice(alloc, b"process ")?;
    words.extend_from_slice(pid.as_bytes())?;
    words.extend_from_slice(b" broken: ")?;
    line_with(alloc, words.as_slice(), &broken.text, b"")
}

/// The lines about the processes that broke, in order.
fn broken_lines(alloc: Global, broken: &[Broken]) -> Result<Vec<u8>, AllocError>
    ensures { IfOk result (λ bytes. bytes.items ≡ broken_lines (map view_broken broken.now)) }
{
    let mut lines = Vec::new(alloc);
    for one in broken {
        let line = broken_line(alloc, one)?;
        lines.extend_from_slice(line.as_slice())?;
    }
    Ok(lines)
}

/// The line about the limit of quanta.
fn limit_line(alloc: Global, quanta: u64) -> Result<Vec<u8>, AllocError>
    ensures { IfOk result (λ bytes. bytes.items ≡ line (codes "limit " ++ decimal quanta)) }
{
    let number = digits(alloc, quanta)?;
    let mut bytes = Vec::from_slice(alloc, b"inferno: limit ")?;
    bytes.extend_from_slice(number.as_bytes())?;
    bytes.push(b'\n')?;
    Ok(bytes)
}

/// The line about texts that clash.
fn clash_line(alloc: Global, clash: &Clash) -> Result<Vec<u8>, AllocError>
    ensures { IfOk result (λ bytes. bytes.items ≡ clash_line clash.now) }
{
    let mut bytes = Vec::from_slice(alloc, b"inferno: clash ")?;
    bytes.extend_from_slice(clash.first.as_slice())?;
    bytes.push(b' ')?;
    bytes.extend_from_slice(clash.second.as_slice())?;
    bytes.push(b'\n')?;
    Ok(bytes)
}

/// The lines about the cause.
fn closing_line(alloc: Global, cause: &Cause) -> Result<Vec<u8>, AllocError>
    ensures { IfOk result (λ bytes. bytes.items ≡ closing_line cause.now) }
{
    match cause {
        Cause::Done => Ok(Vec::new(alloc)),
        Cause::Broke { broken } => broken_lines(alloc, broken),
        Cause::Limit { quanta } => limit_line(alloc, *quanta),
        Cause::Usage => Vec::from_slice(alloc, b"inferno: usage\n"),
        Cause::BadSource { file, fault } => {
            let told = told(alloc, *fault)?;
            line_with(alloc, b"", file, told.as_slice())
        }
        Cause::Clashing { clash } => clash_line(alloc, clash),
        Cause::BadObject { file, fault } => {
            let told = told_refusal(alloc, *fault)?;
            line_with(alloc, b"", file, told.as_slice())
        }
        Cause::Host { path, .. } => line_with(alloc, b"file ", path, b""),
        Cause::SinkFault { .. } => Vec::from_slice(alloc, b"inferno: output failed\n"),
        Cause::NoMemory => Vec::from_slice(alloc, b"inferno: no memory\n"),
    }
}

/// All lines: those about the cause, and what the run took, where that is told and memory didn't run out.
fn closing_lines(alloc: Global, cause: &Cause, stats: Option<Stats>) -> Result<Vec<u8>, AllocError>
    ensures { IfOk result (λ bytes. bytes.items ≡ closing_lines cause.now stats) }
{
    let mut lines = closing_line(alloc, cause)?;
    if !cause.lacks_memory() {
        if let Some(stats) = stats {
            let line = stats.line(alloc)?;
            lines.extend_from_slice(line.as_slice())?;
        }
    }
    Ok(lines)
}

/// Writes the lines about the cause, and what the run took, where that is told. They are made before any of them is written: where that
/// takes more memory than there is, the cause is want of memory. A fault of `err` changes no cause.
pub fn close<E: Sink>(alloc: Global, cause: Cause, stats: Option<Stats>, err: &mut E) -> Cause
    ensures cause { (result ≡ cause) ⊎ (result ≡ Cause.NoMemory) }
    ensures written { IsWritten (E.held err.old) (E.held err.new) (E.faults err.old) (E.faults err.new) (closing_lines result stats) }
    ensures later { E.faults err.old ≤ E.faults err.new }
{
    match closing_lines(alloc, &cause, stats) {
        Ok(lines) => {
            let _ = write_whole(err, lines.as_slice());
            cause
        }
        Err(_) => {
            let _ = write_whole(err, b"inferno: no memory\n");
            Cause::NoMemory
        }
    }
}
