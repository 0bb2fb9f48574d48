ghost use Rattle.std.specs.Prelude.{◌≡◌, ◌-◌, ◌≤◌, ◌||◌, [], codes, slice_index_or};
ghost use Rattle.std.specs.Str.{bytes_eq};
ghost use Rattle.x12_segs.specs.Words.{parts};
ghost use Rattle.night_report.specs.Clean as clean;

use x12_bytes::Delims;
use x12_segs::{Parts, components};

/// The parts of a text round a byte: the components that this byte would separate.
fn parts_of(text: &[u8], separator: u8) -> Parts<'_>
    ensures { result ≡ parts separator text.entry.now }
{
    components(
        text,
        Delims {
            element: separator,
            component: separator,
            repetition: None,
            terminator: separator,
        },
    )
}

/// Word `n` of a line, counted from 1.
fn word(line: &[u8], n: usize) -> &[u8]
    requires { 1 ≤ n }
    ensures { result.now ≡ slice_index_or (clean.words_of line.entry.now) (n - 1) [] }
{
    parts_of(line, b' ').nth(n - 1).unwrap_or(b"")
}

fn last_word(line: &[u8]) -> &[u8]
    ensures { result.now ≡ clean.last_of (clean.words_of line.entry.now) }
{
    let mut last: &[u8] = b"";
    for word in parts_of(line, b' ') {
        last = word;
    }
    last
}

/// Whether a group's verdict is one that somebody has to look at (AK901).
fn is_partial_or_rejected(verdict: &[u8]) -> bool
    ensures { result ≡ (bytes_eq verdict.now (codes "P") || bytes_eq verdict.now (codes "R")) }
{
    verdict == b"P".as_slice() || verdict == b"R".as_slice()
}

fn tells_of_trouble(line: &[u8]) -> bool
    ensures { result ≡ clean.tells_of_trouble line.now }
{
    let first = word(line, 1);
    first == b"held".as_slice()
        || (first == b"interchange".as_slice() && word(line, 9) == b"refused".as_slice())
        || (first == b"group".as_slice() && is_partial_or_rejected(word(line, 4)))
}

fn ends_in_nought(line: &[u8]) -> bool
    ensures { result ≡ clean.ends_in_nought line.now }
{
    last_word(line) == b"0".as_slice()
}

/// Whether a night was clean, by its report: no interchange is refused, no group's verdict is P or R, no set is held, and
/// nothing is outside interchanges. Lines are what LF ends, words what spaces divide.
pub fn is_clean(report: &[u8]) -> bool
    ensures { result ≡ clean.is_clean report.now }
{
    let mut parts = parts_of(report, b'\n');
    let mut line = parts.next_or_empty();
    let mut before: &[u8] = b"";
    for next in parts {
        if tells_of_trouble(line) {
            return false;
        }
        before = line;
        line = next;
    }
    ends_in_nought(before)
}
