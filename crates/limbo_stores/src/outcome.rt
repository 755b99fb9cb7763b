//! What is told of a store.

ghost use Rattle.std.specs.Prelude.{◌≡◌};
ghost use Rattle.limbo_stores.specs.Choosing as choosing;

/// Whether a store is allowed.
#[derive(Clone, Copy)]
pub enum Store {
    /// It is.
    Allowed,
    /// Refusal 51: it is into an `FD`, which is opaque.
    Opaque,
    /// Refusal 52: it could make a heap value reach itself.
    Cyclic,
}

// What is told of two stores together.
pub(crate) fn worse(first: Store, second: Store) -> Store
    ensures { result ≡ choosing.worse first second }
{
    match first {
        Store::Allowed => second,
        Store::Opaque => Store::Opaque,
        Store::Cyclic => match second {
            Store::Opaque => Store::Opaque,
            _ => Store::Cyclic,
        },
    }
}

// What is told of a store that can close a ring, or can't.
pub(crate) fn closing(closes: bool) -> Store
    ensures { result ≡ choosing.closing closes }
{
    if closes {
        Store::Cyclic
    } else {
        Store::Allowed
    }
}
