//! The source in which a row stands.

use inf_ports::MemTree;
use inf_text::{Seq, Text};
use std::alloc::{AllocError, Global};

// What stands before the body.
const BEFORE: &str = "implement T; include \"sys.m\"; \
N: adt { v: int; next: ref N; }; \
O: adt { r: ref N; }; \
P: adt { a: int; pick { A => x: int; B => s: string; } }; \
Q: adt { v: int; get: fn(q: self Q): int; zero: fn(): int; }; \
M: module { PATH: con \"m.dis\"; k: con 3; h: fn(x: int): string; }; \
T: module { f: fn(): (int, string); g: fn(): ref N; take: fn(x: int); mod: fn(m: M); \
know: fn(l: list of string, a: array of int): int; row: fn(n: int, b: byte, t: string, r, s: ref N, o: ref O, p: ref P, pa: ref P.A, \
pr: ref P, q: ref Q, w: Q, a: array of int, bytes: array of byte, l: list of string, c, d: chan of int, e: chan of string, \
cs: array of chan of int, m: M, sys: Sys, fd: ref Sys->FD); }; \
Q.get(q: self Q): int { return 0; } Q.zero(): int { return 0; } \
f(): (int, string) { return (0, nil); } g(): ref N { return nil; } take(x: int) { } mod(m: M) { } \
know(l: list of string, a: array of int): int { return 0; } \
row(n: int, b: byte, t: string, r, s: ref N, o: ref O, p: ref P, pa: ref P.A, pr: ref P, q: ref Q, w: Q, a: array of int, \
bytes: array of byte, l: list of string, c, d: chan of int, e: chan of string, cs: array of chan of int, m: M, sys: Sys, \
fd: ref Sys->FD) { ";

/// The source whose last function has this body.
///
/// # Errors
/// Want of memory.
pub fn source(alloc: Global, body: &str) -> Result<String, AllocError> {
    format!(in alloc; "{BEFORE}{body} }}")
}

/// The text of a spelling.
///
/// # Errors
/// Want of memory.
pub fn text(alloc: Global, spelling: &str) -> Result<Text, AllocError> {
    let mut chars = Vec::new(alloc);
    for c in spelling.chars() {
        chars.push(c)?;
    }
    Ok(Text::from_vec(chars))
}

/// No files stand beside it: `sys.m` is built in.
pub fn files(alloc: Global) -> MemTree {
    let none: Vec<(Text, Seq<u8>)> = Vec::new(alloc);
    MemTree::new(none, Vec::new(alloc))
}
