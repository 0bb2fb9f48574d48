ghost use Rattle.std.specs.Prelude.{◌≡◌, ◌<◌, length};
ghost use Rattle.std.specs.List.{list_any, list_all, filter};
ghost use Rattle.elem_rules.specs.Clean.{is_set, marked, bits_to};
ghost use Rattle.elem_rules.specs.Found.{read, is_present_in};

use crate::divided::is_empty;
use x12_bytes::Delims;

/// The bits of the elements that aren't empty, of a segment's texts from its first element on: bit k for element k.
pub(crate) fn present_bits(delims: Delims, texts: &[&[u8]]) -> u64
    requires { length texts.now < 64 }
    ensures { result ≡ bits_to (is_present_in delims (read texts.now)) (length texts.now) }
{
    let mut present = 0;
    for k in 0..texts.len() {
        present = marked(present, k as u32 + 1, !is_empty(delims, texts[k]));
    }
    present
}

/// Whether the bit of a position is set.
pub(crate) fn is_set(bits: u64, position: u32) -> bool
    ensures { result ≡ is_set bits position }
{
    position < 64 && (bits >> position) & 1 == 1
}

/// The bits with that of a position set where an element is there; else as they are.
pub(crate) fn marked(bits: u64, position: u32, present: bool) -> u64
    requires { position < 64 }
    ensures { result ≡ marked bits position present }
{
    if present {
        bits | (1 << position)
    } else {
        bits
    }
}

/// Whether an element is there at one of these positions or more (X12.6, relational conditions).
pub(crate) fn has_present(bits: u64, positions: &[u32]) -> bool
    ensures { result ≡ list_any (is_set bits) positions.now }
{
    positions.iter().any(|position| is_set(bits, *position))
}

/// Whether an element is there at each of these positions (X12.6, relational conditions).
pub(crate) fn have_all(bits: u64, positions: &[u32]) -> bool
    ensures { result ≡ list_all (is_set bits) positions.now }
{
    positions.iter().all(|position| is_set(bits, *position))
}

/// At how many of these positions an element is there (X12.6, relational conditions).
pub(crate) fn present_in(bits: u64, positions: &[u32]) -> usize
    ensures { result ≡ length (filter (is_set bits) positions.now) }
{
    positions
        .iter()
        .filter(|position| is_set(bits, **position))
        .count()
}
