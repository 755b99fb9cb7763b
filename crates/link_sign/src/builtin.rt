/// The text of the built-in `print`: a format, whatever follows it, and an int as its answer.
pub const PRINT: [u8; 7] = *b"f(s,*)i";

/// The text of the built-in `fprint`, whose first argument is a `ref` of the `FD` of `Sys`.
pub const FPRINT: [u8; 17] = *b"f(Ra{fd:i;},s,*)i";

/// The text of the built-in `sprint`, which answers a string.
pub const SPRINT: [u8; 7] = *b"f(s,*)s";
