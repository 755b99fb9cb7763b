ghost use Rattle.std.specs.Prelude.{◌≡◌};
ghost use Rattle.dis_format.specs.Loading.{kind_of};

/// What an item of the initial data is (dis(6), "Data section").
#[derive(Clone, Copy)]
pub enum ItemKind {
    /// Bytes.
    Bytes,
    /// Words of 4 bytes.
    Words,
    /// A string, in UTF-8.
    Text,
    /// Reals of 8 bytes.
    Reals,
    /// A new array: the number of its elements' type, and its length.
    Array,
    /// What follows goes into the array at the offset, from this element on.
    Enter,
    /// What follows goes where it went before the array was entered.
    Leave,
    /// Bigs of 8 bytes.
    Bigs,
}

/// The kind that has this number. There is none for 0, which ends the data, and none above 8.
pub fn item_kind(number: u8) -> Option<ItemKind>
    ensures { result ≡ kind_of number }
{
    match number {
        1 => Some(ItemKind::Bytes),
        2 => Some(ItemKind::Words),
        3 => Some(ItemKind::Text),
        4 => Some(ItemKind::Reals),
        5 => Some(ItemKind::Array),
        6 => Some(ItemKind::Enter),
        7 => Some(ItemKind::Leave),
        8 => Some(ItemKind::Bigs),
        _ => None,
    }
}
