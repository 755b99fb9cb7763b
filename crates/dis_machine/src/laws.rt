//! What holds of every journal.

ghost use Rattle.dis_machine.specs.Taken.{RepliesHappen};
ghost use Rattle.dis_machine.specs.Translated.{JournalsTranslate};

/// The replay of a machine's journal is that of its translation: what is known of the journals of process_model is known of it.
pub fn journals_translate()
    ensures { JournalsTranslate }
{}

/// A reply to the request that the process waits for is never refused: an Rwrite of no more bytes than were asked, or an Rerror.
pub fn replies_happen()
    ensures { RepliesHappen }
{}
