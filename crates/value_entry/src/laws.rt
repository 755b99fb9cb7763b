//! What holds where a machine of a module's object begins.

ghost use Rattle.value_entry.specs.Opening.{WithoutWords};
ghost use Rattle.value_entry.specs.Entry.{EntriesLead, EntriesLeadWithout};

/// A machine that gets no words begins as one does otherwise.
pub fn lists_without_words()
    ensures { WithoutWords }
{}

/// Where a machine of a module's object begins that gets words, its process is on its way to where it and three-address code of the module
/// are ready, the worlds are alike, and nothing is there that the module doesn't name.
pub fn entries_lead()
    ensures { EntriesLead }
{}

/// So it is where it gets none.
pub fn entries_lead_without()
    ensures { EntriesLeadWithout }
{}
