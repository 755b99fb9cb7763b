//! What other modules call of a module, and what it calls.

ghost use Rattle.std.specs.Prelude.{◌≡◌, ◌<◌, ◌≤◌, IfOk, map, codes, length};
ghost use Rattle.std.specs.Option.{ForSome};
ghost use Rattle.slot_code.specs.View.{view_function};
ghost use Rattle.dis_objects.specs.Objects as objects;

use dis_file::{Import, LinkEntry};
use inf_text::{Seq, Text};
use slot_code::SlotFn;
use std::alloc::{AllocError, Global};

// The functions of Sys in the order of their declaration, each with its signature; the last three are built in. `print` is number 16.
static FUNCTIONS: [(u32, &[u8]); 19] = [
    (0x3CCFF274, b"open"),
    (0x67CC7858, b"create"),
    (0x68E35D99, b"fildes"),
    (0x0F16C600, b"read"),
    (0x0F16C600, b"write"),
    (0x32406BA2, b"seek"),
    (0x7AEE0B4E, b"stat"),
    (0x6FEE5B91, b"fstat"),
    (0x9C2929D2, b"dirread"),
    (0xC6935858, b"remove"),
    (0x66326D91, b"bind"),
    (0x21E337E3, b"unmount"),
    (0xC6935858, b"chdir"),
    (0x05DF27FB, b"pctl"),
    (0xE57680AB, b"pipe"),
    (0x7D129ED3, b"tokenize"),
    (0x3F3C28DA, b"print"),
    (0x88119A3B, b"fprint"),
    (0xD62E2B44, b"sprint"),
];

// The signature of `init`.
const INIT: u32 = 0x9A253C94;

/// The function `init`, the first of them, by its number.
pub fn find_init(functions: &[SlotFn]) -> Option<usize>
    ensures found { result ≡ objects.find 0 (codes "init") (map view_function functions.now) }
    ensures within { ForSome result (λ n. n < length functions.now) }
{
    for (number, function) in functions.iter().enumerate() {
        if function.name.as_slice() == ['i', 'n', 'i', 't'].as_slice() {
            return Some(number);
        }
    }
    None
}

/// How many instructions the entry of a module has.
pub fn entry_length(init: Option<usize>) -> u32
    ensures value { result ≡ objects.entry_length init }
    ensures few { result ≤ 3 }
{
    match init {
        None => 1,
        Some(_) => 3,
    }
}

/// The text of these characters, each below 256.
pub(crate) fn to_text(alloc: Global, chars: &[u8]) -> Result<Text, AllocError>
    ensures { IfOk result (λ text. text ≡ chars.now) }
{
    let mut text = Text::new(alloc);
    for c in chars {
        text.push(char::from(*c))?;
    }
    Ok(text)
}

// The import table of these functions, each with its signature.
fn make_imports(alloc: Global, functions: &[(u32, &[u8])]) -> Result<Seq<Import>, AllocError>
    ensures { IfOk result (λ table. table ≡ map (λ row. objects.import row.0 row.1.now) functions.now) }
{
    let mut table = Vec::new(alloc);
    for (sign, name) in functions {
        table.push(Import {
            sign: *sign,
            name: to_text(alloc, name)?,
        })?;
    }
    Ok(Seq::from_vec(table))
}

/// The import table of a module that calls Sys.
///
/// # Errors
/// Want of memory.
pub fn imports_of_sys(alloc: Global) -> Result<Seq<Import>, AllocError>
    ensures { IfOk result (λ table. table ≡ objects.sys_imports) }
{
    make_imports(alloc, &FUNCTIONS)
}

/// What other modules may call: `init`, where the module has one.
///
/// # Errors
/// Want of memory.
pub fn links_of(alloc: Global, init: Option<usize>) -> Result<Seq<LinkEntry>, AllocError>
    requires { ForSome init (λ n. n ≤ 1048576) }
    ensures { IfOk result (λ links. links ≡ objects.init_links init) }
{
    let mut links = Vec::new(alloc);
    if let Some(number) = init {
        links.push(LinkEntry {
            pc: 0,
            frame: number as u32 + 1,
            sign: INIT,
            name: to_text(alloc, b"init")?,
        })?;
    }
    Ok(Seq::from_vec(links))
}
