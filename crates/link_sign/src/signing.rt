//! Signatures.

ghost use Rattle.std.specs.Prelude.{◌≡◌, ◌+◌, ◌*◌, ◌≤◌, length, IfOk};
ghost use Rattle.limbo_types.specs.View.{view_fn};
ghost use Rattle.limbo_adts.specs.Table.{defs_of};
ghost use Rattle.link_sign.specs.Signature.{word_of, fold, IsSignature};

use crate::text::sign_text;
use byteorder::{ByteOrder, LittleEndian};
use limbo_adts::Adts;
use limbo_types::FnTy;
use md5::{Digest, Md5};
use std::alloc::{AllocError, Global};

// The word of this number in a digest.
fn word(digest: &[u8], number: usize) -> u32
    requires { 4 * number + 4 ≤ length digest.now }
    ensures { result ≡ word_of digest.now number }
{
    LittleEndian::read_u32(&digest[4 * number..])
}

/// What a text folds to: the four little-endian words of its MD5 digest, combined by exclusive or. It takes no memory.
#[tactic(auto, unfolding(crate::specs::Signature::fold))]
pub fn fold_text(text: &[u8]) -> u32
    ensures { result ≡ fold text.now }
{
    let digest = Md5::digest(text);
    word(&digest, 0) ^ word(&digest, 1) ^ word(&digest, 2) ^ word(&digest, 3)
}

/// The signature of a function by its type: what the text of the type folds to.
///
/// # Errors
/// Want of memory.
pub fn sign(alloc: Global, adts: &Adts, f: &FnTy) -> Result<u32, AllocError>
    ensures { IfOk result (λ sign. IsSignature (defs_of adts.now) adts.now.modules (view_fn f.now) sign) }
{
    let text = sign_text(alloc, adts, f)?;
    Ok(fold_text(&text))
}
