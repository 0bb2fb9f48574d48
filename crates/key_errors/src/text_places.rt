//! Where in a file something is, and what is there.
ghost use Rattle.std.specs.Prelude.{◌≡◌, ◌≤◌, ◌<◌, ◌++◌, decimal, drop, length, min, take, OnOk};
ghost use Rattle.std.specs.List.{count_by, flat_map, take_while};
ghost use Rattle.key_errors.specs.TextPlaces as places;

use crate::shown::digit;
use crate::words::{AFTER, FILE_ENDS, LINE, LINE_ENDS};
use hub_kinds::NoMemory;
use setup_errors::{Detail, Sentence, append, append_sentence};

/// This many bytes of a line are shown at most.
const MOST_SHOWN: usize = 40;

fn line_feeds(text: &[u8]) -> usize
    ensures value { result ≡ count_by places.is_line_feed text.now }
    ensures bound { result ≤ length text.now }
{
    text.iter().filter(|byte| **byte == b'\n').count()
}

fn last_line_length(text: &[u8]) -> usize
    ensures value { result ≡ places.last_line_length text.now }
    ensures bound { result ≤ length text.now }
{
    let mut length = 0usize;
    for i in 0..text.len() {
        length = if text[i] == b'\n' { 0 } else { length + 1 };
    }
    length
}

fn append_place(out: &mut Vec<u8>, line: usize, column: usize) -> Result<(), NoMemory>
    ensures { OnOk result (out.new.items ≡ out.old.items ++ places.place_words line column) }
{
    let line = Detail::Number(line as u64);
    append_sentence(
        out,
        Sentence::Two(LINE, line, Detail::Number(column as u64)),
    )
}

fn is_printed(byte: u8) -> bool
    ensures { result ≡ places.is_printed byte }
{
    32 <= byte && byte <= 126
}

/// Adds a byte, where it isn't printed its number to the base 16.
fn append_byte(out: &mut Vec<u8>, byte: u8) -> Result<(), NoMemory>
    ensures { OnOk result (out.new.items ≡ out.old.items ++ places.printed_byte byte) }
{
    if is_printed(byte) {
        return append(out, &[byte]);
    }
    append(out, &[b'\\', b'x', digit(byte / 16), digit(byte % 16)])
}

fn append_bytes(out: &mut Vec<u8>, text: &[u8]) -> Result<(), NoMemory>
    ensures { OnOk result (out.new.items ≡ out.old.items ++ flat_map places.printed_byte text.now) }
{
    for i in 0..text.len() {
        append_byte(out, text[i])?;
    }
    Ok(())
}

fn is_in_line(byte: u8) -> bool
    ensures { result ≡ places.is_in_line byte }
{
    !(byte == b'\n' || byte == b'\r')
}

/// Up to where a line goes.
fn line_length(text: &[u8]) -> usize
    ensures value { result ≡ length (take_while places.is_in_line text.now) }
    ensures bound { result ≤ length text.now }
    ensures front { take result text.now ≡ take_while places.is_in_line text.now }
{
    for i in 0..text.len() {
        if !is_in_line(text[i]) {
            return i;
        }
    }
    text.len()
}

/// The line that a text begins with.
fn line_of(text: &[u8]) -> &[u8]
    ensures { result.now ≡ take_while places.is_in_line text.entry.now }
{
    &text[..line_length(text)]
}

/// The front of a line, so far as it is shown.
#[tactic(auto, using(std::proofs::lemmas::List::take_min))]
fn front_of(line: &[u8]) -> &[u8]
    ensures { result.now ≡ take places.MOST_SHOWN line.entry.now }
{
    &line[..MOST_SHOWN.min(line.len())]
}

/// Adds what is at the front of a text.
fn append_standing(out: &mut Vec<u8>, rest: &[u8]) -> Result<(), NoMemory>
    ensures { OnOk result (out.new.items ≡ out.old.items
        ++ places.standing_words (take places.MOST_SHOWN (take_while places.is_in_line rest.now)) rest.now) }
{
    let front = front_of(line_of(rest));
    if !front.is_empty() {
        append_bytes(out, front)
    } else if rest.is_empty() {
        append(out, FILE_ENDS.as_bytes())
    } else {
        append(out, LINE_ENDS.as_bytes())
    }
}

/// Adds a place in a file, what is wrong there, and what is there.
pub(crate) fn append_said_at(
    out: &mut Vec<u8>,
    bytes: &[u8],
    offset: usize,
    said: &[u8],
) -> Result<(), NoMemory>
    requires { offset ≤ length bytes.now }
    ensures { OnOk result (out.new.items ≡ out.old.items ++ places.said_at bytes.now offset said.now) }
{
    let before = &bytes[..offset];
    append_place(out, line_feeds(before) + 1, last_line_length(before) + 1)?;
    append(out, said)?;
    append(out, AFTER.as_bytes())?;
    append_standing(out, &bytes[offset..])
}
