//! What holds of returns: the machine's code of one leads from where two processes stand alike to where they do again.

ghost use Rattle.rows_ending.specs.Endings.{EndsGo, NothingReturns, NumberReturns, NilReturns};

/// A return of the first function ends both processes.
pub fn ends_go()
    ensures { EndsGo }
{}

/// One that gives nothing goes on in the frame that waits.
pub fn nothing_returns()
    ensures { NothingReturns }
{}

/// One that gives a byte or an int moves it to the slot that waits for it, and goes on there.
pub fn number_returns()
    ensures { NumberReturns }
{}

/// One without a slot, of a function whose answer refers, lets the slot that waits for it refer to nothing, and goes on there.
pub fn nil_returns()
    ensures { NilReturns }
{}
