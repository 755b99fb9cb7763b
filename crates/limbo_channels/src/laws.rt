//! What holds of the definitions.

ghost use Rattle.limbo_channels.specs.Laws.{OneReceive, OneSend, OneLoad, ReceivesAreSound, SendsAreSound, LoadsAreSound};

/// A receive is one expression at most.
pub fn one_receive()
    ensures { OneReceive }
{}

/// A send is one expression at most.
pub fn one_send()
    ensures { OneSend }
{}

/// A load is one expression at most.
pub fn one_load()
    ensures { OneLoad }
{}

/// Receives and sends are sound where their parts are.
pub fn sound_channels()
    ensures receives { ReceivesAreSound }
    ensures sends { SendsAreSound }
{}

/// Loads are sound where the path is.
pub fn sound_loads()
    ensures { LoadsAreSound }
{}
