ghost use Rattle.std.specs.Prelude.{◌≡◌};
ghost use Rattle.ack_read.specs.Kinds.{ack_kind};

/// What a segment of an acknowledgment reports, by its id (X12.5; 999 guide).
#[derive(Clone, Copy, Debug, PartialEq, Eq)]
pub enum AckKind {
    /// ISA: an interchange begins.
    InterchangeHeader,
    /// TA1: the outcome of an interchange.
    Ta1,
    /// AK1: which group the 999 answers.
    GroupHeader,
    /// AK2: which set is answered next.
    SetHeader,
    /// IK3: a segment in error.
    SegmentNote,
    /// IK4: an element in error.
    ElementNote,
    /// IK5: the outcome of the set.
    SetResponse,
    /// AK9: the outcome of the group.
    GroupResponse,
    /// Any other id.
    Other,
}

/// What a segment of this id reports.
pub fn ack_kind(id: &[u8]) -> AckKind
    ensures { result ≡ ack_kind id.now }
{
    match id {
        b"AK2" => AckKind::SetHeader,
        b"IK5" => AckKind::SetResponse,
        b"TA1" => AckKind::Ta1,
        b"IK3" => AckKind::SegmentNote,
        b"IK4" => AckKind::ElementNote,
        b"AK1" => AckKind::GroupHeader,
        b"AK9" => AckKind::GroupResponse,
        b"ISA" => AckKind::InterchangeHeader,
        _ => AckKind::Other,
    }
}
