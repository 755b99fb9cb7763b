use super::{Failed, HostFault, HostTree, MemSink, MemTree, Sink, StdSink, StdTree, write_whole};
use inf_text::{Seq, Text};
use std::alloc::{AllocError, Global};
use std::io::{ErrorKind, Write};
use std::test::Fail;
use std::{fs, io};

fn text(alloc: Global, chars: &[char]) -> Result<Text, AllocError> {
    Ok(Text::from_vec(Vec::from_slice(alloc, chars)?))
}

/// Reads and writes in memory, with listed calls that fail, a path that is absent and room that is full.
#[test]
fn keeps_content_in_memory(rt: HostRuntime) -> Result<(), Fail> {
    let (here, absent) = (
        text(rt.alloc(), &['a', '.', 'b'])?,
        text(rt.alloc(), &['c'])?,
    );
    let bytes = Seq::from_vec(Vec::from_slice(rt.alloc(), b"xy")?);
    let files = vec![in rt.alloc(); (here.clone()?, bytes)]?;
    let mut tree = MemTree::new(files, vec![in rt.alloc(); 1]?);
    for (path, wanted, faults) in [
        (&here, Ok(b"xy".as_slice()), 0),
        (&here, Err(HostFault::Failed), 1),
        (&absent, Err(HostFault::NoFile), 1),
        (&here, Ok(b"xy".as_slice()), 1),
    ] {
        match tree.read_file(rt.alloc(), path) {
            Ok(bytes) => assert_eq!(rt; Ok(bytes.as_slice()), wanted),
            Err(fault) => assert_eq!(rt; Err(fault), wanted),
        }
        assert_eq!(rt; tree.faults(), faults);
    }
    let mut sink = MemSink::new(rt.alloc(), 4, vec![in rt.alloc(); 1]?)?;
    for (piece, taken, held, faults) in [
        (b"ab".as_slice(), Ok(2), b"ab".as_slice(), 0),
        (b"c".as_slice(), Err(Failed), b"ab".as_slice(), 1),
        (b"cde".as_slice(), Ok(2), b"abcd".as_slice(), 1),
        (b"".as_slice(), Ok(0), b"abcd".as_slice(), 1),
        (b"e".as_slice(), Err(Failed), b"abcd".as_slice(), 2),
    ] {
        assert_eq!(rt; sink.write_some(piece), taken);
        assert_eq!(rt; sink.as_slice(), held);
        assert_eq!(rt; sink.faults(), faults);
    }
    Ok(())
}

/// Writes in memory: a file that is new, one in place of another, and a listed call, which changes nothing.
#[test]
fn writes_files_in_memory(rt: HostRuntime) -> Result<(), Fail> {
    let (here, other) = (text(rt.alloc(), &['a'])?, text(rt.alloc(), &['b'])?);
    let mut tree = MemTree::new(Vec::new(rt.alloc()), vec![in rt.alloc(); 4]?);
    for (path, bytes, wanted, held, faults) in [
        (&here, b"x".as_slice(), Ok(()), b"x".as_slice(), 0),
        (&other, b"y".as_slice(), Ok(()), b"y".as_slice(), 0),
        (
            &here,
            b"z".as_slice(),
            Err(HostFault::Failed),
            b"x".as_slice(),
            1,
        ),
        (&here, b"".as_slice(), Ok(()), b"".as_slice(), 1),
    ] {
        assert_eq!(rt; tree.write_file(rt.alloc(), path, bytes), wanted);
        let now = tree.read_file(rt.alloc(), path);
        assert_eq!(rt; now?.as_slice(), held);
        assert_eq!(rt; tree.faults(), faults);
    }
    Ok(())
}

/// A real file is written twice, the second time shorter; no folder can be written as a file.
#[test]
fn writes_real_files(rt: HostRuntime) -> Result<(), Fail> {
    let mut tree = StdTree::new(&rt);
    let path = text(rt.alloc(), &['w', '.', 't', 'm', 'p'])?;
    for bytes in [b"several".as_slice(), b"few".as_slice()] {
        assert_eq!(rt; tree.write_file(rt.alloc(), &path, bytes), Ok(()));
        let now = tree.read_file(rt.alloc(), &path);
        assert_eq!(rt; now?.as_slice(), bytes);
    }
    fs::remove_file(&rt, "w.tmp")?;
    let folder = text(rt.alloc(), &['.'])?;
    let written = tree.write_file(rt.alloc(), &folder, b"x");
    assert_eq!(rt; written, Err(HostFault::Failed));
    assert_eq!(rt; tree.faults(), 1);
    Ok(())
}

/// A real file, a path without one, and a folder, which can't be read as a file.
#[test]
fn reads_real_files(rt: HostRuntime) -> Result<(), Fail> {
    fs::write(&rt, "\u{E9}.tmp", b"hi\n")?;
    let mut tree = StdTree::new(&rt);
    let file = tree.read_file(
        rt.alloc(),
        &text(rt.alloc(), &['\u{E9}', '.', 't', 'm', 'p'])?,
    );
    fs::remove_file(&rt, "\u{E9}.tmp")?;
    assert_eq!(rt; file?.as_slice(), b"hi\n".as_slice());
    for (path, fault, faults) in [
        (['n', 'o', 'n', 'e'].as_slice(), HostFault::NoFile, 0),
        (['.'].as_slice(), HostFault::Failed, 1),
    ] {
        let read = tree.read_file(rt.alloc(), &text(rt.alloc(), path)?);
        assert_eq!(rt; read.err(), Some(fault));
        assert_eq!(rt; tree.faults(), faults);
    }
    Ok(())
}

/// A writer that answers its calls from a list: how many bytes it takes, or the error.
#[derive(Drop)]
struct Script<'a> {
    answers: &'a [Result<usize, ErrorKind>],
    bytes: [u8; 8],
    len: usize,
    flushed: usize,
}

impl Write for Script<'_> {
    fn write(&mut self, buf: &[u8]) -> io::Result<usize> {
        let Some((answer, rest)) = self.answers.split_first() else {
            return Ok(0);
        };
        self.answers = rest;
        match answer {
            Err(kind) => Err(io::Error::from(*kind)),
            Ok(most) => {
                let count = buf.len().min(*most);
                for (at, byte) in buf.iter().enumerate() {
                    if at < count && self.len < self.bytes.len() {
                        self.bytes[self.len] = *byte;
                        self.len += 1;
                    }
                }
                Ok(count)
            }
        }
    }

    fn flush(&mut self) -> io::Result<()> {
        self.flushed = self.len;
        Ok(())
    }
}

/// Three bytes over writers that take one byte at a time, that a signal interrupts, that fail in mid-stream, and that
/// take nothing.
#[test]
fn writes_through_to_a_writer(rt: HostRuntime) -> Result<(), Fail> {
    for (answers, wanted, bytes, faults) in [
        ([Ok(1), Ok(1), Ok(1)], Ok(()), b"abc".as_slice(), 0),
        (
            [Err(ErrorKind::Interrupted), Ok(2), Ok(9)],
            Ok(()),
            b"abc".as_slice(),
            0,
        ),
        (
            [Ok(2), Err(ErrorKind::StorageFull), Ok(1)],
            Err(Failed),
            b"ab".as_slice(),
            1,
        ),
        ([Ok(1), Ok(0), Ok(2)], Err(Failed), b"a".as_slice(), 1),
    ] {
        let mut script = Script {
            answers: &answers,
            bytes: [0; 8],
            len: 0,
            flushed: 0,
        };
        let mut sink = StdSink::new(&mut script);
        assert_eq!(rt; write_whole(&mut sink, b"abc"), wanted);
        assert_eq!(rt; sink.faults(), faults);
        drop(sink);
        assert_eq!(rt; script.bytes.get(..script.flushed), Some(bytes));
    }
    Ok(())
}
