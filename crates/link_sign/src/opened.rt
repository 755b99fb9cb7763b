//! The adts that a text has opened so far.

ghost use Rattle.std.specs.Prelude.{◌≡◌, [], ◌∷◌, ◌++◌, None, OnOk};
ghost use Rattle.link_sign.specs.TypeText.{opened_as};

use std::alloc::{AllocError, Global};
use std::collections::BTreeMap;
use std::marker::Model;

/// Adts in the order in which they were opened, each once.
#[derive(Drop)]
pub struct Opened {
    order: Vec<u32>,
    // Of each the place in that order.
    places: BTreeMap<u32, usize>,
}

impl Model for Opened {
    ghost use Rattle.std.specs.Prelude.{List, ℕ};

    ghost Value = { List ℕ };

    ghost use Rattle.link_sign.specs.Opened.{IsPlaced};

    ghost view = { λ a. a.order.items };

    ghost invariant = { IsPlaced };
}

impl Opened {
    /// None is opened.
    pub fn new(alloc: Global) -> Opened
        ensures { result ≡ [] }
    {
        Opened {
            order: Vec::new(alloc),
            places: BTreeMap::new(alloc),
        }
    }

    /// The number under which an adt was opened.
    pub fn number(&self, adt: u32) -> Option<usize>
        ensures { result ≡ opened_as self.now adt }
    {
        self.places.get(&adt).copied()
    }

    /// Opens an adt.
    ///
    /// # Errors
    /// Want of memory.
    pub fn open(&mut self, adt: u32) -> Result<(), AllocError>
        requires { opened_as self.old adt ≡ None }
        ensures { OnOk result (self.new ≡ self.old ++ adt ∷ []) }
    {
        self.order.reserve(1)?;
        self.places.insert(adt, self.order.len())?;
        self.order.push_reserved(adt);
        Ok(())
    }
}
