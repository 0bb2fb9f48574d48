ghost use Rattle.std.specs.Prelude.{◌≡◌, ◌-◌, is_some, take, if◌then◌else◌};
ghost use Rattle.mailbox.specs.Deliveries as deliveries;
ghost use Rattle.track_table.specs.Hindrance as hindrance;

use answered_sets::PlacedSet;
use env_index::SetEnvelope;
use x12_bytes::Delims;
use x12_segs::{Parts, SegView, Segments};
use x12_write::is_delimiter;

/// What is in the way of a delivery (own; X12.5, delimiters).
#[derive(Clone, Copy, Debug, PartialEq, Eq)]
pub struct Hindrance {
    /// A delimiter of the receiver that is none of the set's own.
    pub byte: u8,
    /// How many segments of the set are before the first that it is in; none before ST.
    pub before: u64,
}

fn collides(from: &Delims, to: &Delims, byte: u8) -> bool
    ensures { result ≡ deliveries.collides from.now to.now byte }
{
    !is_delimiter(from, byte) && is_delimiter(to, byte)
}

/// The first byte of a text that is in the way.
fn byte_in_the_way(from: &Delims, to: &Delims, text: &[u8]) -> Option<u8>
    ensures { result ≡ hindrance.byte_in_the_way from.now to.now text.now }
{
    for byte in text {
        if collides(from, to, *byte) {
            return Some(*byte);
        }
    }
    None
}

/// The first one of texts.
fn byte_in_parts(from: &Delims, to: &Delims, parts: Parts<'_>) -> Option<u8>
    ensures { result ≡ hindrance.byte_in_parts from.now to.now parts.entry }
{
    for part in parts {
        if let Some(byte) = byte_in_the_way(from, to, part) {
            return Some(byte);
        }
    }
    None
}

/// The first one of what is kept of an ST.
fn byte_in_header(from: &Delims, to: &Delims, header: &SegView<'_>) -> Option<u8>
    ensures { result ≡ hindrance.byte_in_parts from.now to.now (deliveries.kept_parts header.now) }
{
    let mut elements = header.elements();
    let first = elements.next_or_empty();
    let _number = elements.next_or_empty();
    byte_in_the_way(from, to, header.id())
        .or(byte_in_the_way(from, to, first))
        .or(byte_in_parts(from, to, elements))
}

/// The first one of the first segments of those that are left, `most` of them, which are after ST.
fn first_in(from: &Delims, to: &Delims, segments: Segments<'_>, most: u64) -> Option<Hindrance>
    ensures { result ≡ hindrance.first_in from.now to.now 1 (take most segments.entry) }
{
    let mut left = segments;
    let mut count = 0;
    while count < most {
        match left.next() {
            None => return None,
            Some(segment) => {
                if let Some(byte) = byte_in_the_way(from, to, segment.bytes()) {
                    return Some(Hindrance {
                        byte,
                        before: count + 1,
                    });
                }
            }
        }
        count += 1;
    }
    None
}

/// How many segments are between ST and SE.
fn inner_count(set: &SetEnvelope<'_>) -> u64
    ensures { result ≡ (if is_some set.now.trailer then set.now.segments - 2 else set.now.segments - 1) }
{
    if set.trailer.is_some() {
        set.segments.saturating_sub(2)
    } else {
        set.segments.saturating_sub(1)
    }
}

/// What is in the way of a set's delivery to a receiver with these delimiters, if anything is.
pub(crate) fn hindrance_to(to: &Delims, placed: &PlacedSet<'_, '_, '_>) -> Option<Hindrance>
    ensures { result ≡ hindrance.hindrance_to to.now placed.now }
{
    let from = placed.delims();
    let set = placed.set();
    match byte_in_header(&from, to, &set.header) {
        Some(byte) => Some(Hindrance { byte, before: 0 }),
        None => first_in(&from, to, placed.behind_header(&set), inner_count(&set)),
    }
}
