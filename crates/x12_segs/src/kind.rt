ghost use Rattle.std.specs.Prelude.{◌≡◌};
ghost use Rattle.x12_segs.specs.Kinds.{kind_by_id, kind_of};
ghost use Rattle.x12_segs.specs.Parts.{parts};
ghost use Rattle.x12_segs.specs.View.{part_or_empty};
ghost use Rattle.x12_segs.specs.Letters.{begins_as_control};

use crate::view::SegView;

/// What a segment's id says of its place in the envelopes (X12.5, interchange control segments;
/// X12.6, control segments).
#[derive(Clone, Copy, Debug, PartialEq, Eq)]
pub enum Kind {
    /// IEA: interchange control trailer.
    InterchangeTrailer,
    /// GS: functional group header.
    GroupHeader,
    /// GE: functional group trailer.
    GroupTrailer,
    /// ST: transaction set header.
    SetHeader,
    /// SE: transaction set trailer.
    SetTrailer,
    /// TA1: interchange acknowledgment.
    Ta1,
    /// Any other id.
    Other,
}

/// A segment's kind, by its id alone, byte for byte. Most segments are recognized by their first letter.
pub fn kind_of(segment: &SegView<'_>) -> Kind
    ensures { result ≡ kind_of segment.now }
{
    if !begins_as_control(segment.bytes()) {
        return Kind::Other;
    }
    kind_by_id(short_id(segment.bytes(), segment.delims().element))
}

/// Whether a segment begins with a letter with which a control segment's id begins.
fn begins_as_control(bytes: &[u8]) -> bool
    ensures { result ≡ begins_as_control bytes.now }
{
    match bytes.first() {
        Some(first) => matches!(*first, b'I' | b'G' | b'S' | b'T'),
        None => false,
    }
}

/// A segment's id, or its first four bytes where it is longer: no control segment's id is.
fn short_id(bytes: &[u8], element: u8) -> &[u8]
    ensures { kind_by_id result.now ≡ kind_by_id (part_or_empty (parts element bytes.now) 0) }
{
    let most = bytes.len().min(4);
    for at in 0..most {
        if bytes[at] == element {
            return &bytes[..at];
        }
    }
    &bytes[..most]
}

fn kind_by_id(id: &[u8]) -> Kind
    ensures { result ≡ kind_by_id id.now }
{
    match id {
        b"IEA" => Kind::InterchangeTrailer,
        b"GS" => Kind::GroupHeader,
        b"GE" => Kind::GroupTrailer,
        b"ST" => Kind::SetHeader,
        b"SE" => Kind::SetTrailer,
        b"TA1" => Kind::Ta1,
        _ => Kind::Other,
    }
}
