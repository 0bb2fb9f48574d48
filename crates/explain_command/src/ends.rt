ghost use Rattle.std.specs.Prelude.{◌≡◌, false, length, true};
ghost use Rattle.std.specs.List.{list_any};
ghost use Rattle.x12_segs.specs.Words.{elements_of};
ghost use Rattle.night_definition.specs.Segments.{is_line_end};
ghost use Rattle.night_definition.specs.ReadBack.{segments_in};
ghost use Rattle.ack_read.specs.Words.{first_delims};
ghost use Rattle.explain_command.specs.Ends as ends;

use x12_bytes::Delims;
use x12_segs::{SegView, segments};

/// Where a text of acknowledgments is cut off.
#[derive(Clone, Copy, Debug, PartialEq, Eq)]
pub enum CutOff {
    /// Within a segment: its terminator is missing.
    InSegment,
    /// Within a 999: its SE is missing.
    In999,
}

fn is_line_end(byte: u8) -> bool
    ensures { result ≡ is_line_end byte }
{
    byte == b'\r' || byte == b'\n'
}

/// Whether some byte but CR and LF is after the last terminator.
fn ends_open(terminator: u8, text: &[u8]) -> bool
    ensures { result ≡ ends.ends_open terminator false text.now }
{
    let mut is_open = false;
    for i in 0..text.len() {
        is_open = text[i] != terminator && (is_open || !is_line_end(text[i]));
    }
    is_open
}

fn stays_begun(begun: bool, id: &[u8]) -> bool
    ensures { result ≡ ends.stays_begun begun id.now }
{
    id == b"ST".as_slice() || begun && !(id == b"SE".as_slice())
}

/// Whether a set is begun, and no SE follows.
#[tactic(auto, using(night_equal::proofs::ForAbove::segments_are))]
fn ends_in_set(text: &[u8], delims: Delims) -> bool
    ensures { result ≡ ends.ends_in_set false (segments_in delims text.now) }
{
    let mut begun = false;
    for segment in segments(text, delims) {
        begun = stays_begun(begun, segment.id());
    }
    begun
}

fn is_response(segment: &SegView<'_>) -> bool
    ensures { result ≡ ends.is_response (elements_of segment.now) }
{
    segment.id() == b"AK5".as_slice()
}

/// Whether a text, read by these delimiters, has the response to a set that a 997 has.
#[tactic(auto, using(night_equal::proofs::ForAbove::segments_are))]
pub(crate) fn has_response(text: &[u8], delims: Delims) -> bool
    ensures { result ≡ list_any ends.is_response (segments_in delims text.now) }
{
    for segment in segments(text, delims) {
        if is_response(&segment) {
            return true;
        }
    }
    false
}

/// The id of a set (ST01), of three letters or digits.
#[derive(Clone, Copy, Debug, PartialEq, Eq)]
pub struct SetId {
    pub first: u8,
    pub second: u8,
    pub third: u8,
}

/// Whether the id of a set is three letters or digits other than 999.
fn is_other(id: &[u8]) -> bool
    ensures value { result ≡ ends.is_other id.now }
    ensures length { result ≡ true → length id.now ≡ 3 }
{
    id.len() == 3
        && id[0].is_ascii_alphanumeric()
        && id[1].is_ascii_alphanumeric()
        && id[2].is_ascii_alphanumeric()
        && !(id == b"999".as_slice())
}

/// The id of a set, if it is three letters or digits other than 999.
fn other_id(id: &[u8]) -> Option<SetId>
    ensures { result ≡ ends.other_id id.now }
{
    if is_other(id) {
        Some(SetId {
            first: id[0],
            second: id[1],
            third: id[2],
        })
    } else {
        None
    }
}

fn is_set(segment: &SegView<'_>) -> bool
    ensures { result ≡ ends.is_set (elements_of segment.now) }
{
    segment.id() == b"ST".as_slice()
}

/// The id of the first set of a text, read by these delimiters, if that isn't an acknowledgment.
#[tactic(auto, using(night_equal::proofs::ForAbove::segments_are))]
pub(crate) fn other_set(text: &[u8], delims: Delims) -> Option<SetId>
    ensures { result ≡ ends.other_in (segments_in delims text.now) }
{
    for segment in segments(text, delims) {
        if is_set(&segment) {
            return other_id(segment.element(1));
        }
    }
    None
}

/// Where a text is cut off, read by the delimiters of its first header.
pub(crate) fn cut_of(text: &[u8], delims: Delims) -> Option<CutOff>
    requires { delims ≡ first_delims text.now }
    ensures { result ≡ ends.cut_of text.now }
{
    if ends_open(delims.terminator, text) {
        Some(CutOff::InSegment)
    } else if ends_in_set(text, delims) {
        Some(CutOff::In999)
    } else {
        None
    }
}
