//! What holds of rows of arrays, lists and channels.

ghost use Rattle.rows_lists.specs.Rows.{TailsGo, HeadsGo, KnownComparable, IdenticalsGo, DistinctsGo, TagsGo, ChannelsGo};
ghost use Rattle.rows_lists.specs.Rows.{ConsesGo, CellsGo, ArraysGo, SlicesGo, LengthsGo, CountsGo};

/// What is behind the first cell of a list comes into a slot.
pub fn tails_go()
    ensures { TailsGo }
{}

/// So does the item of the first cell, where it is a number or a reference.
pub fn heads_go()
    ensures { HeadsGo }
{}

/// References may be compared where neither is known as an array, or both are, of which one names nothing.
pub fn known_comparable()
    ensures { KnownComparable }
{}

/// Whether two references are one comes into a slot, where they may be compared.
pub fn identicals_go()
    ensures { IdenticalsGo }
{}

/// So does whether they are two.
pub fn distincts_go()
    ensures { DistinctsGo }
{}

/// The number of the variant to which a `ref` leads comes into a slot.
pub fn tags_go()
    ensures { TagsGo }
{}

/// A new channel comes into a slot.
pub fn channels_go()
    ensures { ChannelsGo }
{}

/// A list with an item more in front comes into a slot.
pub fn conses_go()
    ensures { ConsesGo }
{}

/// So does a cell of a list that is written.
pub fn cells_go()
    ensures { CellsGo }
{}

/// A new array comes into a slot, or both processes end as broken.
pub fn arrays_go()
    ensures { ArraysGo }
{}

/// Part of an array comes into a slot, or both processes end as broken.
pub fn slices_go()
    ensures { SlicesGo }
{}

/// How long an array is comes into a slot.
pub fn lengths_go()
    ensures { LengthsGo }
{}

/// How many cells a list has does, where no list has more than ints count.
pub fn counts_go()
    ensures { CountsGo }
{}
