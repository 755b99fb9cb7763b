//! What holds of rows whose values have a record of their own.

ghost use Rattle.rows_boxes.specs.Differing.{SlotsDiffer};
ghost use Rattle.rows_boxes.specs.Rows.{BigLiteralsGo, BigArithmeticGoes, BigShiftsGo, BigAltersGo, BigConvertsGo, BoxReadsGo};
ghost use Rattle.rows_boxes.specs.Rows.{BoxGlobalsGo, BigsShortenGo, AltersGo, BigNumbersReadGo, BoxHeadsGo, BigComparesGo, BigTextsGo};

/// A constant that is a big comes into a slot.
pub fn big_literals_go()
    ensures { BigLiteralsGo }
{}

/// So does what is calculated from two bigs.
pub fn big_arithmetic_goes()
    ensures { BigArithmeticGoes }
{}

/// So does a big that is shifted.
pub fn big_shifts_go()
    ensures { BigShiftsGo }
{}

/// So does a big that is altered.
pub fn big_alters_go()
    ensures { BigAltersGo }
{}

/// So does a number that becomes a big.
pub fn big_converts_go()
    ensures { BigConvertsGo }
{}

/// Part of a variable is read into a slot, where it has a box.
pub fn box_reads_go()
    ensures { BoxReadsGo }
{}

/// So is part of a variable of the module.
pub fn box_globals_go()
    ensures { BoxGlobalsGo }
{}

/// A big becomes a byte or an int.
pub fn bigs_shorten_go()
    ensures { BigsShortenGo }
{}

/// A byte or an int is altered.
pub fn alters_go()
    ensures { AltersGo }
{}

/// The number that a text begins with comes into a slot, as a big.
pub fn big_numbers_read_go()
    ensures { BigNumbersReadGo }
{}

/// The first item of a list comes into a slot, where it has a box.
pub fn box_heads_go()
    ensures { BoxHeadsGo }
{}

/// How two bigs compare comes into a slot.
pub fn big_compares_go()
    ensures { BigComparesGo }
{}

/// A big as a text comes into a slot.
pub fn big_texts_go()
    ensures { BigTextsGo }
{}

/// In the code of a typed function a slot that gets a value is none of those that the instruction reads.
pub fn slots_differ()
    ensures { SlotsDiffer }
{}
