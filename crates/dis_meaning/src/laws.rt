//! What holds of every instruction.

ghost use Rattle.dis_meaning.specs.Laws.{FaultsChangeNothing, BreaksChangeNothing, StoresCount};
ghost use Rattle.dis_meaning.specs.Laws.{NumbersAreReadBack, NumbersAreReplaced, BytesStay};
ghost use Rattle.dis_meaning.specs.Given.{SerialsAreGiven};

/// An instruction that is wrong changes nothing: the process ends with the fault and the place of the instruction, and what all share
/// is as it was.
pub fn faults_change_nothing()
    ensures { FaultsChangeNothing }
{}

/// So does an instruction that breaks its process, by an exception or by one call too many.
pub fn breaks_change_nothing()
    ensures { BreaksChangeNothing }
{}

/// A word that is stored counts for the block that it names, and the word that stood there counts no more.
pub fn stores_count()
    ensures { StoresCount }
{}

/// Serials of frames are given in rising order by the whole machine: each frame of a process has one that was given before, and every
/// instruction and every reply keeps it so.
pub fn serials_are_given()
    ensures { SerialsAreGiven }
{}

/// A number that is stored is read again.
pub fn numbers_are_read_back()
    ensures { NumbersAreReadBack }
{}

/// A number is stored exactly where one of its kind is read.
pub fn numbers_are_replaced()
    ensures { NumbersAreReplaced }
{}

/// A byte that is stored leaves the others as they were read.
pub fn bytes_stay()
    ensures { BytesStay }
{}
