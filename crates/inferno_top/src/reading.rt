//! Reads a source: its file, tokens, tree, the texts that it includes, its names, checked module and object.

ghost use Rattle.std.specs.Prelude.{◌≡◌, ◌≤◌, ◌⊎◌, List, ℕ, true, IfOk, IfErr};
ghost use Rattle.inf_ports.specs.Outside.{Told};
ghost use Rattle.limbo_tree.specs.Sources as sources;
ghost use Rattle.limbo_tree.specs.View.{view_source};
ghost use Rattle.limbo_typed.specs.Typed.{Module};
ghost use Rattle.limbo_typed.specs.View.{view_module};
ghost use Rattle.declared_signs.specs.Declared.{AreToldApart};
ghost use Rattle.source_modules.specs.Given.{Gives};
ghost use Rattle.inferno_top.specs.declared.cause.Aim.{Aim as AnyAim};
ghost use Rattle.inferno_top.specs.Built.{HasTree, IsModuleFor, is_in};
ghost use Rattle.inferno_top.specs.Faults.{IsTreeFault};
ghost use Rattle.inferno_top.specs.Outcome.{IsClashOf};
ghost use Rattle.inferno_top.specs.Reading.{IsRead, IsTreeAt, IsReadFault, IsTreeReadFault, IsFaultOf, IsUnchecked, IsUnread};
ghost use Rattle.inferno_top.specs.Reading.{lacks_init, span_at, unlexed, unparsed, uncompiled, cause_of_files, cause_of_checking};
ghost use Rattle.inferno_top.specs.Running.{IsMade};

use crate::cause::{Aim, Cause, SourceFault};
use declared_signs::declared_clash;
use dis_file::Object;
use inf_ports::{HostFault, HostTree};
use inf_text::{Span, Text};
use limbo_compiler::{CompileFault, compile};
use limbo_lexer::{LexFault, Token, lex};
use limbo_parser::{ParseFault, parse};
use limbo_tree::Source;
use limbo_typed::TypedModule;
use source_files::{FilesFault, read_included};
use source_modules::{Checked, ModuleFault, check_source};
use std::alloc::Global;
use typed_part::{is_part, runs};

/// Why bytes were not read as a program.
#[derive(Clone, Copy)]
pub enum ReadFault {
    /// Want of memory.
    NoMemory,
    /// The source is refused.
    Refused { fault: SourceFault },
}

/// Where the token with this number stands, or the first place where there is none.
fn place(tokens: &[Token], number: usize) -> Span
    ensures { result ≡ span_at tokens.now number }
{
    match tokens.get(number) {
        Some(token) => token.span,
        None => Span {
            line: 1,
            col: 1,
            len: 0,
        },
    }
}

/// The refusal of bytes and their text.
fn unlexed(fault: LexFault) -> ReadFault
    ensures { result ≡ unlexed fault }
{
    match fault {
        LexFault::NoMemory => ReadFault::NoMemory,
        fault => ReadFault::Refused {
            fault: SourceFault::Lex { fault },
        },
    }
}

/// The refusal of tokens.
fn unparsed(tokens: &[Token], fault: ParseFault) -> ReadFault
    ensures { result ≡ unparsed tokens.now fault }
{
    match fault {
        ParseFault::NoMemory => ReadFault::NoMemory,
        ParseFault::Syntax { token } | ParseFault::TooDeep { token } => ReadFault::Refused {
            fault: SourceFault::Parse {
                fault,
                span: place(tokens, token),
            },
        },
    }
}

/// The refusal of the compiler.
fn uncompiled(fault: CompileFault) -> ReadFault
    ensures { result ≡ uncompiled fault }
{
    match fault {
        CompileFault::NoMemory => ReadFault::NoMemory,
        CompileFault::FrameTooLarge => ReadFault::Refused {
            fault: SourceFault::FrameTooLarge,
        },
        CompileFault::CodeTooLarge => ReadFault::Refused {
            fault: SourceFault::CodeTooLarge,
        },
    }
}

/// The tree of a source.
///
/// # Errors
/// The refusal of its bytes, tokens or grammar; `NoMemory`.
fn read_tree(alloc: Global, source: &[u8]) -> Result<Source, ReadFault>
    ensures found { IfOk result (λ tree. HasTree source.now (view_source tree)) }
    ensures refused { IfErr result (IsReadFault source.now) }
{
    let tokens = match lex(alloc, source) {
        Ok(tokens) => tokens,
        Err(fault) => return Err(unlexed(fault)),
    };
    let tokens = tokens.as_slice();
    match parse(alloc, tokens, false) {
        Ok(tree) => Ok(tree),
        Err(fault) => Err(unparsed(tokens, fault)),
    }
}

/// Whether a module has to declare `init` as a first one does, and doesn't.
fn lacks_init(aim: Aim, begins: bool) -> bool
    ensures { result ≡ lacks_init aim begins }
{
    match aim {
        Aim::Run => !begins,
        Aim::Write => false,
    }
}

/// Whether a typed module is in the part of the language that is compiled for this.
fn is_in(aim: Aim, program: &TypedModule) -> bool
    ensures { result ≡ is_in aim (view_module program.now) }
{
    match aim {
        Aim::Run => runs(program),
        Aim::Write => is_part(program),
    }
}

/// The program of what is told of a typed module.
///
/// # Errors
/// The refusal: `NoInit` where it's to be run and doesn't declare `init` as a first module has to, else `Unbuilt` where it is outside of
/// the part that runs.
fn program_of(aim: Aim, checked: &Checked) -> Result<&TypedModule, SourceFault>
    ensures same { IfOk result (λ m. m.now ≡ checked.now.module.value) }
    ensures found { IfOk result (λ m. (told : Told) (path : List ℕ) (tree : sources.Source) → Gives told path tree checked.now
        → IsModuleFor aim told path tree (view_module m.now)) }
    ensures part { IfOk result (λ m. is_in aim (view_module m.now) ≡ true) }
    ensures refused { IfErr result (λ f. (told : Told) (path : List ℕ) (tree : sources.Source) → Gives told path tree checked.now
        → IsTreeFault aim told path tree f) }
{
    if lacks_init(aim, checked.begins) {
        return Err(SourceFault::NoInit);
    }
    let program: &TypedModule = &checked.module;
    if is_in(aim, program) {
        Ok(program)
    } else {
        Err(SourceFault::Unbuilt)
    }
}

/// The object of what is told of a typed module.
///
/// # Errors
/// The refusal of the module; `NoMemory`.
fn object_of(alloc: Global, aim: Aim, checked: &Checked) -> Result<Object, ReadFault>
    ensures found { IfOk result (λ _. (told : Told) (path : List ℕ) (tree : sources.Source) → Gives told path tree checked.now
        → IsModuleFor aim told path tree (view_module checked.now.module.value)) }
    ensures made { IfOk result (IsMade aim (view_module checked.now.module.value)) }
    ensures refused { IfErr result (λ f. (told : Told) (path : List ℕ) (tree : sources.Source) → Gives told path tree checked.now
        → IsTreeReadFault aim told path tree f) }
{
    let program = match program_of(aim, checked) {
        Ok(program) => program,
        Err(fault) => return Err(ReadFault::Refused { fault }),
    };
    match compile(alloc, program) {
        Ok(object) => Ok(object),
        Err(fault) => Err(uncompiled(fault)),
    }
}

/// Looks whether signatures tell the functions apart that a module declares.
///
/// # Errors
/// The cause: their first clash, or want of memory.
fn tell_apart(alloc: Global, module: &TypedModule) -> Result<(), Cause>
    ensures apart { IfOk result (λ _. AreToldApart (view_module «module».now)) }
    ensures clash { IfErr result (IsClashOf (view_module «module».now)) }
{
    match declared_clash(alloc, module) {
        Ok(None) => Ok(()),
        Ok(Some(clash)) => Err(Cause::Clashing { clash }),
        Err(_) => Err(Cause::NoMemory),
    }
}

/// The file at the path could not be read or written.
pub fn unread(path: &Text, missing: bool) -> Cause
    ensures { (result ≡ Cause.Host path.now missing) ⊎ (result ≡ Cause.NoMemory) }
{
    match path.clone() {
        Ok(path) => Cause::Host { path, missing },
        Err(_) => Cause::NoMemory,
    }
}

/// The source at the path is refused.
fn refused(path: &Text, fault: SourceFault) -> Cause
    ensures { (result ≡ Cause.BadSource path.now fault) ⊎ (result ≡ Cause.NoMemory) }
{
    match path.clone() {
        Ok(file) => Cause::BadSource { file, fault },
        Err(_) => Cause::NoMemory,
    }
}

/// The source at the path is not read.
fn faulted(path: &Text, fault: ReadFault) -> Cause
    ensures { IsFaultOf path.now fault result }
{
    match fault {
        ReadFault::NoMemory => Cause::NoMemory,
        ReadFault::Refused { fault } => refused(path, fault),
    }
}

/// An included text is none, or could not be read.
fn of_files(fault: FilesFault) -> Cause
    ensures { result ≡ cause_of_files fault }
{
    match fault {
        FilesFault::NoMemory => Cause::NoMemory,
        FilesFault::Failed { path } => Cause::Host {
            path,
            missing: false,
        },
        FilesFault::Lex { path, fault } => Cause::BadSource {
            file: path,
            fault: SourceFault::Lex { fault },
        },
        FilesFault::Parse { path, fault, span } => Cause::BadSource {
            file: path,
            fault: SourceFault::Parse { fault, span },
        },
    }
}

/// A condition of includes, names, types or statements isn't met.
fn of_checking(fault: ModuleFault) -> Cause
    ensures { result ≡ cause_of_checking fault }
{
    match fault {
        ModuleFault::NoMemory => Cause::NoMemory,
        ModuleFault::Refused { number, path, at } => Cause::BadSource {
            file: path,
            fault: SourceFault::Unchecked { number, span: at },
        },
    }
}

/// What is told of the typed module that a tree is, with the texts that it includes.
///
/// # Errors
/// The cause: an included text is refused or can't be read, names, types or statements are refused, or want of memory.
fn check_tree<H: HostTree>(
    alloc: Global,
    path: &Text,
    tree: &Source,
    files: &mut H,
) -> Result<Checked, Cause>
    ensures checked { IfOk result (λ c. Gives (H.told files.old) path.now (view_source tree.now) c) }
    ensures unchecked { IfErr result
        (λ cause. IsUnchecked (H.told files.old) path.now (view_source tree.now) (H.faults files.old) (H.faults files.new) cause) }
    ensures kept { H.told files.new ≡ H.told files.old }
    ensures later { H.faults files.old ≤ H.faults files.new }
{
    let texts = match read_included(alloc, path, tree, files) {
        Ok(texts) => texts,
        Err(fault) => return Err(of_files(fault)),
    };
    match check_source(alloc, path, tree, &texts) {
        Ok(checked) => Ok(checked),
        Err(fault) => Err(of_checking(fault)),
    }
}

/// The tree of the source in the file at the path.
///
/// # Errors
/// The cause: the file can't be read, its bytes are refused, or want of memory.
fn read_first<H: HostTree>(alloc: Global, path: &Text, files: &mut H) -> Result<Source, Cause>
    ensures tree { IfOk result (λ tree. IsTreeAt (H.told files.old) path.now (view_source tree)) }
    ensures unread { IfErr result
        (λ cause. (aim : AnyAim) → IsUnread aim (H.told files.old) path.now (H.faults files.old) (H.faults files.new) cause) }
    ensures kept { H.told files.new ≡ H.told files.old }
    ensures later { H.faults files.old ≤ H.faults files.new }
{
    let source = match files.read_file(alloc, path) {
        Ok(source) => source,
        Err(HostFault::NoMemory) => return Err(Cause::NoMemory),
        Err(HostFault::NoFile) => return Err(unread(path, true)),
        Err(HostFault::Failed) => return Err(unread(path, false)),
    };
    match read_tree(alloc, source.as_slice()) {
        Ok(tree) => Ok(tree),
        Err(fault) => Err(faulted(path, fault)),
    }
}

/// The object of the program in the file at the path, which is compiled for this.
///
/// # Errors
/// The cause: the file or one that it includes can't be read, its source or an included one is refused, the functions that it declares
/// clash, or want of memory.
pub fn read_source<H: HostTree>(
    alloc: Global,
    aim: Aim,
    path: &Text,
    files: &mut H,
) -> Result<Object, Cause>
    ensures read { IfOk result (λ o. (m : Module) × IsRead aim (H.told files.old) path.now m × IsMade aim m o) }
    ensures unread { IfErr result (IsUnread aim (H.told files.old) path.now (H.faults files.old) (H.faults files.new)) }
    ensures kept { H.told files.new ≡ H.told files.old }
    ensures later { H.faults files.old ≤ H.faults files.new }
{
    let tree = match read_first(alloc, path, files) {
        Ok(tree) => tree,
        Err(cause) => return Err(cause),
    };
    let checked = match check_tree(alloc, path, &tree, files) {
        Ok(checked) => checked,
        Err(cause) => return Err(cause),
    };
    let object = match object_of(alloc, aim, &checked) {
        Ok(object) => object,
        Err(fault) => return Err(faulted(path, fault)),
    };
    let program: &TypedModule = &checked.module;
    match tell_apart(alloc, program) {
        Ok(()) => Ok(object),
        Err(cause) => Err(cause),
    }
}
