use inf_text::{Seq, Text};

/// The tag of a message that belongs to no request, as Tversion's.
pub const NOTAG: u16 = 0xFFFF;

/// The fid that stands for none, as the `afid` of a Tattach without authentication.
pub const NOFID: u32 = 0xFFFF_FFFF;

/// The longest message, in bytes.
pub const MESSAGE_MAX: usize = 8216;

/// The shortest message, in bytes: a size, a type and a tag.
pub const MESSAGE_MIN: usize = 7;

/// The longest text, in bytes of UTF-8.
pub const TEXT_MAX: usize = 65535;

/// How many names or qids a walk may have.
pub const WALK_MAX: usize = 16;

/// What a server knows a file by (Styx manual, section 5, intro).
#[derive(Clone, Copy, Debug, PartialEq, Eq)]
pub struct Qid {
    /// The manual's `type`: what kind of file it is.
    pub kind: u8,
    /// The version, which changes with the contents.
    pub vers: u32,
    /// The number of the file at its server.
    pub path: u64,
}

/// A file's entry in its directory (Styx manual, section 5, stat).
#[derive(Debug, Drop, PartialEq, Eq)]
pub struct Stat {
    /// The manual's `type`: the server's type.
    pub kind: u16,
    pub dev: u32,
    pub qid: Qid,
    pub mode: u32,
    /// Last read, in seconds since 1970.
    pub atime: u32,
    /// Last written, in seconds since 1970.
    pub mtime: u32,
    /// In bytes.
    pub length: u64,
    pub name: Text,
    pub uid: Text,
    pub gid: Text,
    pub muid: Text,
}

/// A request (Styx manual, section 5).
#[derive(Debug, Drop, PartialEq, Eq)]
pub enum Tmsg {
    Version {
        msize: u32,
        version: Text,
    },
    Auth {
        afid: u32,
        uname: Text,
        aname: Text,
    },
    Attach {
        fid: u32,
        afid: u32,
        uname: Text,
        aname: Text,
    },
    Flush {
        oldtag: u16,
    },
    Walk {
        fid: u32,
        newfid: u32,
        wname: Seq<Text>,
    },
    Open {
        fid: u32,
        mode: u8,
    },
    Create {
        fid: u32,
        name: Text,
        perm: u32,
        mode: u8,
    },
    Read {
        fid: u32,
        offset: u64,
        count: u32,
    },
    Write {
        fid: u32,
        offset: u64,
        piece: Seq<u8>,
    },
    Clunk {
        fid: u32,
    },
    Remove {
        fid: u32,
    },
    Stat {
        fid: u32,
    },
    Wstat {
        fid: u32,
        stat: Stat,
    },
}

/// A reply (Styx manual, section 5).
#[derive(Debug, Drop, PartialEq, Eq)]
pub enum Rmsg {
    Version { msize: u32, version: Text },
    Auth { aqid: Qid },
    Attach { qid: Qid },
    Error { ename: Text },
    Flush,
    Walk { wqid: Seq<Qid> },
    Open { qid: Qid, iounit: u32 },
    Create { qid: Qid, iounit: u32 },
    Read { piece: Seq<u8> },
    Write { count: u32 },
    Clunk,
    Remove,
    Stat { stat: Stat },
    Wstat,
}

/// What the bytes at hand begin with.
#[derive(Debug, Drop, PartialEq, Eq)]
pub enum Decoded<T> {
    /// A message, and how many bytes it takes.
    Whole { tag: u16, message: T, used: usize },
    /// Less than a message.
    Short,
}
