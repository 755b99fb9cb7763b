//! Functions that signatures can't tell apart.

ghost use Rattle.std.specs.Prelude.{◌≡◌, ◌↔◌, None, IfOk, IfSome};
ghost use Rattle.link_sign.specs.Clashes.{AreApart, Tells, texts_of};

use crate::found::{Clash, told};
use crate::signing::fold_text;
use std::alloc::{AllocError, Global};
use std::collections::BTreeMap;

/// Whether texts of functions clash: two different ones that have one signature. The texts are those of all functions that are
/// declared, exported or imported, with the three of the built-in functions; one text may stand there more than once. Of texts
/// that clash the first is told that clashes with one before it, and with it that one.
///
/// # Errors
/// Want of memory.
pub fn clash(alloc: Global, texts: &[Vec<u8>]) -> Result<Option<Clash>, AllocError>
    ensures none { IfOk result (λ r. (r ≡ None) ↔ AreApart (texts_of texts.now)) }
    ensures first { IfOk result (λ r. IfSome r (λ c. Tells (texts_of texts.now) c)) }
{
    let mut firsts: BTreeMap<u32, usize> = BTreeMap::new(alloc);
    for (number, text) in texts.iter().enumerate() {
        let sign = fold_text(text);
        match firsts.get(&sign).copied() {
            Some(first) => {
                let earlier = &texts[first];
                if earlier != text {
                    return Ok(Some(told(alloc, earlier, text, sign)?));
                }
            }
            None => {
                firsts.insert(sign, number)?;
            }
        }
    }
    Ok(None)
}
