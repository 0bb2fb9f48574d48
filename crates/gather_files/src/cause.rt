ghost use Rattle.std.specs.Prelude.{◌≡◌, ◌≤◌, ◌∷◌, [], codes, length, true};
ghost use Rattle.gather_files.specs.Causes.{begins, cause_by, cause_of, header_cause, is_compressed, is_utf16};

use crate::elements::{element_len, width_of, wrong_element};
use x12_bytes::HEADER_LEN;

/// Why a file isn't taken.
#[derive(Clone, Copy, Debug, PartialEq, Eq)]
pub enum Cause {
    /// It has no byte, or blanks alone.
    Empty,
    /// It doesn't begin with a header.
    NoHeader,
    /// It is compressed: gzip, or a ZIP archive.
    Compressed,
    /// It is UTF-16.
    Utf16,
    /// It begins with ISA, but not with a header of 106 bytes, as where its lines were wrapped or trimmed.
    HeaderLength,
    /// It begins with ISA, but an element isn't as long as in a header of 106 bytes.
    ElementLength(ElementLength),
}

/// An element of what should be a header, which isn't as long as the standard says.
#[derive(Clone, Copy, Debug, PartialEq, Eq)]
pub struct ElementLength {
    /// Which one: 1 is ISA01.
    pub element: u64,
    /// How many bytes it has.
    pub len: u64,
    /// How many it has to have.
    pub width: u64,
}

/// Why a file without its blanks isn't taken, at whose front no header begins: by as many of its first bytes as a header
/// has.
pub fn cause_of(file: &[u8]) -> Cause
    ensures { result ≡ cause_of file.now }
{
    cause_by(&file[..HEADER_LEN.min(file.len())])
}

fn cause_by(first: &[u8]) -> Cause
    ensures { result ≡ cause_by first.now }
{
    if first.is_empty() {
        Cause::Empty
    } else if is_compressed(first) {
        Cause::Compressed
    } else if is_utf16(first) {
        Cause::Utf16
    } else if begins_isa(first) {
        header_cause(first)
    } else {
        Cause::NoHeader
    }
}

fn begins_isa(first: &[u8]) -> bool
    ensures value { result ≡ begins (codes "ISA") first.now }
    ensures long { result ≡ true → 3 ≤ length first.now }
{
    first.starts_with(b"ISA")
}

/// Why what begins with ISA isn't a header.
fn header_cause(first: &[u8]) -> Cause
    requires { 3 ≤ length first.now }
    ensures { result ≡ header_cause first.now }
{
    if first.len() == 3 {
        return Cause::HeaderLength;
    }
    let k = wrong_element(first);
    if k == 16 {
        return Cause::HeaderLength;
    }
    Cause::ElementLength(ElementLength {
        element: k as u64,
        len: element_len(first, k) as u64,
        width: width_of(k) as u64,
    })
}

fn is_compressed(first: &[u8]) -> bool
    ensures { result ≡ is_compressed first.now }
{
    first.starts_with(b"\x1f\x8b") || first.starts_with(b"PK\x03\x04")
}

fn is_utf16(first: &[u8]) -> bool
    ensures { result ≡ is_utf16 first.now }
{
    first.starts_with(b"\xff\xfe") || first.starts_with(b"\xfe\xff") || first.starts_with(b"I\0")
}
