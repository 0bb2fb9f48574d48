ghost use Rattle.std.specs.Prelude.{◌≡◌, ◌≤◌, ◌<◌, ◌||◌, ◌&&◌, ◌==◌, not, nat_le, length, take, codes, slice_index};
ghost use Rattle.std.specs.List.{list_all};
ghost use Rattle.std.specs.Str.{bytes_eq};
ghost use Rattle.x12_bytes.specs.Bytes.{is_letter_or_digit, is_line_end, may_separate};
ghost use Rattle.x12_bytes.specs.Header.{element_separator_of};
ghost use Rattle.whole_interchanges.specs.Begun.{are_delims_begun, are_fields_begun, is_begun, is_field_begun, may_begin};

use crate::layout::field_so_far;
use x12_bytes::{HEADER_LEN, separator_place};

/// Whether a header may still turn out to begin at an offset of what is read of a text, by bytes that aren't read yet.
pub fn may_begin(read: &[u8], at: usize) -> bool
    requires { at ≤ length read.now }
    ensures { result ≡ may_begin read.now at }
{
    is_begun(&read[at..])
}

#[tactic(auto, unfolding(crate::specs::Begun::is_begun))]
fn is_begun(bytes: &[u8]) -> bool
    ensures { result ≡ is_begun bytes.now }
{
    bytes.len() < HEADER_LEN
        && begins_as_isa(bytes)
        && (bytes.len() <= 3 || are_delims_begun(bytes) && are_fields_begun(bytes))
}

fn begins_as_isa(bytes: &[u8]) -> bool
    ensures { result ≡ bytes_eq (take 3 bytes.now) (take (length bytes.now) (codes "ISA")) }
{
    let count = bytes.len().min(3);
    bytes[..count] == b"ISA"[..count]
}

fn may_separate(byte: u8) -> bool
    ensures { result ≡ may_separate byte }
{
    !(byte.is_ascii_alphanumeric() || byte == b' ') && !(byte == b'\r' || byte == b'\n')
}

fn are_delims_begun(bytes: &[u8]) -> bool
    requires { 3 < length bytes.now }
    ensures { result ≡ are_delims_begun bytes.now }
{
    may_separate(bytes[3]) && (bytes.len() <= 104 || may_separate(bytes[104]))
}

fn are_fields_begun(bytes: &[u8]) -> bool
    requires { 3 < length bytes.now }
    ensures { result ≡ are_fields_begun bytes.now 16 }
{
    for k in 1..17 {
        if !is_field_begun(bytes, k) {
            return false;
        }
    }
    true
}

fn is_field_begun(bytes: &[u8], k: usize) -> bool
    requires some { 3 < length bytes.now }
    requires from { 1 ≤ k }
    requires to { k ≤ 16 }
    ensures { result ≡ is_field_begun bytes.now k }
{
    has_separator(bytes, separator_place(k), bytes[3])
        && holds_none(field_so_far(bytes, k), bytes[3])
}

/// Whether the separator is at a place, if the bytes go so far.
fn has_separator(bytes: &[u8], place: usize, element: u8) -> bool
    ensures { result ≡ (nat_le (length bytes.now) place || slice_index bytes.now place == element) }
{
    bytes.len() <= place || bytes[place] == element
}

fn holds_none(field: &[u8], element: u8) -> bool
    ensures { result ≡ list_all (λ b. not (b == element)) field.now }
{
    for b in field {
        if *b == element {
            return false;
        }
    }
    true
}
