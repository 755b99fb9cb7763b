ghost use Rattle.std.specs.Prelude.{◌≡◌};
ghost use Rattle.styx_decoding.specs.Reading.{t_number, t_kind_of, r_number, r_kind_of};

/// The type of a request.
#[derive(Clone, Copy)]
pub enum TKind {
    Version,
    Auth,
    Attach,
    Flush,
    Walk,
    Open,
    Create,
    Read,
    Write,
    Clunk,
    Remove,
    Stat,
    Wstat,
}

/// The type of a reply.
#[derive(Clone, Copy)]
pub enum RKind {
    Version,
    Auth,
    Attach,
    Error,
    Flush,
    Walk,
    Open,
    Create,
    Read,
    Write,
    Clunk,
    Remove,
    Stat,
    Wstat,
}

/// The request's type that has this number (Styx manual, section 5, intro).
#[tactic(auto, unfolding(crate::specs::Reading::t_kind_of))]
pub fn t_kind(number: u8) -> Option<TKind>
    ensures { result ≡ t_kind_of number }
{
    match number {
        100 => Some(TKind::Version),
        102 => Some(TKind::Auth),
        104 => Some(TKind::Attach),
        108 => Some(TKind::Flush),
        110 => Some(TKind::Walk),
        112 => Some(TKind::Open),
        114 => Some(TKind::Create),
        116 => Some(TKind::Read),
        118 => Some(TKind::Write),
        120 => Some(TKind::Clunk),
        122 => Some(TKind::Remove),
        124 => Some(TKind::Stat),
        126 => Some(TKind::Wstat),
        _ => None,
    }
}

/// The reply's type that has this number (Styx manual, section 5, intro).
#[tactic(auto, unfolding(crate::specs::Reading::r_kind_of))]
pub fn r_kind(number: u8) -> Option<RKind>
    ensures { result ≡ r_kind_of number }
{
    match number {
        101 => Some(RKind::Version),
        103 => Some(RKind::Auth),
        105 => Some(RKind::Attach),
        107 => Some(RKind::Error),
        109 => Some(RKind::Flush),
        111 => Some(RKind::Walk),
        113 => Some(RKind::Open),
        115 => Some(RKind::Create),
        117 => Some(RKind::Read),
        119 => Some(RKind::Write),
        121 => Some(RKind::Clunk),
        123 => Some(RKind::Remove),
        125 => Some(RKind::Stat),
        127 => Some(RKind::Wstat),
        _ => None,
    }
}
