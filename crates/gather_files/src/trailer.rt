//! How an interchange ends that has no end: cut off, or with an IEA that is written with another separator.
ghost use Rattle.std.specs.Prelude.{◌≡◌, ◌≢◌, ◌≤◌, length, true};
ghost use Rattle.std.specs.List.{prefix_len, suffix_len};
ghost use Rattle.x12_bytes.specs.Bytes.{is_line_end, may_separate};
ghost use Rattle.gather_files.specs.Causes.{is_other};
ghost use Rattle.gather_files.specs.Trailer.{after_terminator, ends_segment, is_trailer_by_another, last_segment, open_end, unended};

use crate::gather::{End, Separators};
use x12_bytes::Delims;

/// How an interchange of these delimiters ends that has no end.
pub(crate) fn open_end(interchange: &[u8], delims: Delims) -> End
    ensures value { result ≡ open_end delims interchange.now }
    ensures open { result ≢ End.Whole }
{
    let segment = last_segment(interchange, delims.terminator);
    if is_trailer_by_another(segment, delims.element) {
        End::OtherSeparator(Separators {
            named: delims.element,
            written: segment[3],
        })
    } else {
        End::CutOff
    }
}

/// Whether a segment is an IEA that is written with another separator than this one.
fn is_trailer_by_another(segment: &[u8], separator: u8) -> bool
    ensures value { result ≡ is_trailer_by_another separator segment.now }
    ensures long { result ≡ true → 4 ≤ length segment.now }
{
    segment.len() > 3
        && segment.starts_with(b"IEA")
        && segment[3] != separator
        && may_separate(segment[3])
}

fn may_separate(byte: u8) -> bool
    ensures { result ≡ may_separate byte }
{
    !(byte.is_ascii_alphanumeric() || byte == b' ' || is_line_end(byte))
}

/// The last segment of an interchange.
fn last_segment(interchange: &[u8], terminator: u8) -> &[u8]
    ensures { result.now ≡ last_segment terminator interchange.now }
{
    let last = after_terminator(unended(interchange, terminator), terminator);
    &last[count_line_ends(last)..]
}

/// An interchange without the terminators, CR and LF at its end.
fn unended(interchange: &[u8], terminator: u8) -> &[u8]
    ensures { result.now ≡ unended terminator interchange.now }
{
    let count = count_ends(interchange, terminator);
    &interchange[..interchange.len() - count]
}

/// What comes after the last terminator; all, if there is none.
fn after_terminator(bytes: &[u8], terminator: u8) -> &[u8]
    ensures { result.now ≡ after_terminator terminator bytes.now }
{
    let count = count_others(bytes, terminator);
    &bytes[bytes.len() - count..]
}

fn count_ends(bytes: &[u8], terminator: u8) -> usize
    ensures count { result ≡ suffix_len (ends_segment terminator) bytes.now }
    ensures within { result ≤ length bytes.now }
{
    bytes
        .iter()
        .rev()
        .take_while(|b| ends_segment(**b, terminator))
        .count()
}

fn count_others(bytes: &[u8], terminator: u8) -> usize
    ensures count { result ≡ suffix_len (is_other terminator) bytes.now }
    ensures within { result ≤ length bytes.now }
{
    bytes
        .iter()
        .rev()
        .take_while(|b| is_other(**b, terminator))
        .count()
}

fn count_line_ends(bytes: &[u8]) -> usize
    ensures count { result ≡ prefix_len is_line_end bytes.now }
    ensures within { result ≤ length bytes.now }
{
    bytes.iter().take_while(|b| is_line_end(**b)).count()
}

fn ends_segment(byte: u8, terminator: u8) -> bool
    ensures { result ≡ ends_segment terminator byte }
{
    is_line_end(byte) || byte == terminator
}

fn is_other(byte: u8, terminator: u8) -> bool
    ensures { result ≡ is_other terminator byte }
{
    byte != terminator
}

fn is_line_end(byte: u8) -> bool
    ensures { result ≡ is_line_end byte }
{
    byte == b'\r' || byte == b'\n'
}
