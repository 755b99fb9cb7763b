//! What holds of prints: the machine's code of one leads from where two processes stand alike to where they do again.

ghost use Rattle.rows_printing.specs.Rows.{PlainPrintsGo, PrintsGo};

/// A print without operands does so, whether it is answered at once or waits for a reply.
pub fn plain_prints_go()
    ensures { PlainPrintsGo }
{}

/// So does one with operands, which move to its frame.
pub fn prints_go()
    ensures { PrintsGo }
{}
