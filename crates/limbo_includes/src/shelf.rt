//! The texts that are at hand, each to be found by its path.

ghost use Rattle.std.specs.Prelude.{◌≡◌, ◌<◌, length, IfOk, IfSome};
ghost use Rattle.limbo_includes.specs.Includes as includes;
ghost use Rattle.limbo_includes.specs.Shelf.{IsIndex, place_of};

use crate::included::Included;
use crate::path::target;
use inf_text::Text;
use std::alloc::{AllocError, Global};
use std::collections::BTreeMap;

/// Texts, with the number of the first of each path.
#[derive(Drop)]
pub(crate) struct Shelf<'a> {
    pub(crate) texts: &'a [Included],
    places: BTreeMap<Text, usize>,
    ghost indexed: { IsIndex texts.now places },
}

// The number of the first text of each path.
fn index(alloc: Global, texts: &[Included]) -> Result<BTreeMap<Text, usize>, AllocError>
    ensures { IfOk result (λ places. IsIndex texts.now places) }
{
    let mut places = BTreeMap::new(alloc);
    let mut number = texts.len();
    while number > 0 {
        number -= 1;
        places.insert(texts[number].path.clone()?, number)?;
    }
    Ok(places)
}

impl<'a> Shelf<'a> {
    /// The texts, to be found by their paths.
    ///
    /// # Errors
    /// Want of memory.
    pub(crate) fn new(alloc: Global, texts: &'a [Included]) -> Result<Shelf<'a>, AllocError>
        ensures { IfOk result (λ shelf. shelf.texts.now ≡ texts.now) }
    {
        let places = index(alloc, texts)?;
        Ok(Shelf { texts, places })
    }

    /// The number of the text that an include names, if it is there.
    ///
    /// # Errors
    /// Want of memory.
    pub(crate) fn place(
        &self,
        alloc: Global,
        including: &Text,
        name: &Text,
    ) -> Result<Option<usize>, AllocError>
        ensures place { IfOk result (λ place. place ≡ place_of self.now.texts.now (includes.target including.now name.now)) }
        ensures within { IfOk result (λ place. IfSome place (λ n. n < length self.now.texts.now)) }
    {
        let path = target(alloc, including, name)?;
        Ok(self.places.get(&path).copied())
    }
}
