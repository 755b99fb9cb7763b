//! The built-in texts: the modules `Sys` and `Draw`.

ghost use Rattle.std.specs.Prelude.{◌≡◌, false, true, IfNone, IfSome};
ghost use Rattle.limbo_includes.specs.Includes.{is_built_in};
ghost use Rattle.source_files.specs.Files.{text_of};

use inf_text::{Text, is_spelled};

/// The text of `sys.m`: the module of the system's calls (Limbo Language Reference, Sys; Inferno manual, sys-intro(2)). Of the prints it
/// declares the names; what they take behind their formats the formats say.
pub(crate) const SYS: &str = "\
Sys: module {
    PATH: con \"$Sys\";
    OREAD: con 0;
    OWRITE: con 1;
    ORDWR: con 2;
    OTRUNC: con 16;
    MREPL: con 0;
    MBEFORE: con 1;
    MAFTER: con 2;
    MCREATE: con 4;
    NEWNS: con 4;
    FORKNS: con 8;
    NODEVS: con 32;
    SEEKSTART: con 0;
    SEEKRELA: con 1;
    SEEKEND: con 2;
    ATOMICIO: con 8192;
    DMDIR: con int 1 << 31;
    QTDIR: con 16r80;
    Qid: adt {
        path: big;
        vers: int;
        qtype: int;
    };
    Dir: adt {
        name, uid, gid, muid: string;
        qid: Qid;
        mode, atime, mtime: int;
        length: big;
        dtype, dev: int;
    };
    FD: adt {
        fd: int;
    };
    open: fn(s: string, mode: int): ref FD;
    create: fn(s: string, mode, perm: int): ref FD;
    fildes: fn(fd: int): ref FD;
    read: fn(fd: ref FD, buf: array of byte, n: int): int;
    write: fn(fd: ref FD, buf: array of byte, n: int): int;
    seek: fn(fd: ref FD, off: big, start: int): big;
    stat: fn(s: string): (int, Dir);
    fstat: fn(fd: ref FD): (int, Dir);
    dirread: fn(fd: ref FD): (int, array of Dir);
    remove: fn(s: string): int;
    bind: fn(s, on: string, flags: int): int;
    unmount: fn(s, on: string): int;
    chdir: fn(path: string): int;
    pctl: fn(flags: int, movefd: list of int): int;
    pipe: fn(fds: array of ref FD): int;
    tokenize: fn(s, delim: string): (int, list of string);
    print: fn(format: string): int;
    fprint: fn(fd: ref FD, format: string): int;
    sprint: fn(format: string): string;
};
";

/// The text of `draw.m`: the module of which a program's first argument has its type.
pub(crate) const DRAW: &str = "\
Draw: module {
    PATH: con \"$Draw\";
    Context: adt {
        unused: int;
    };
};
";

/// The built-in text of this name.
pub(crate) fn built_in(name: &Text) -> Option<&'static str>
    ensures some { IfSome result (λ text. (is_built_in name.now ≡ true) × (text.now ≡ text_of name.now)) }
    ensures none { IfNone result (is_built_in name.now ≡ false) }
{
    if is_spelled(name.as_slice(), "sys.m") {
        return Some(SYS);
    }
    if is_spelled(name.as_slice(), "draw.m") {
        return Some(DRAW);
    }
    None
}
