ghost use Rattle.std.specs.Prelude.{◌≡◌, ℕ, ◌+◌, ◌-◌, ◌≤◌, min, ◌++◌, List, length, drop, OnOk, decimal};
ghost use Rattle.x12_write.specs.Number.{padded_number, padded_text, set_number};
ghost use Rattle.x12_write.specs.Extends.{Extends};

use hub_kinds::NoMemory;
use itoa::write_digits;
use std::marker::Model;

/// The most digits that a `u32` has.
const MOST_DIGITS: usize = 10;

/// As many spaces as an id is filled with at most.
const SPACES: [u8; 15] = [b' '; 15];

/// A number in at least that many digits, which contracts see as its text.
#[derive(Drop)]
pub struct PaddedNumber {
    digits: [u8; MOST_DIGITS],
    start: usize,
}

impl Model for PaddedNumber {
    ghost Value = { List ℕ };

    ghost view = { λ n. drop n.start n.digits };

    ghost invariant = { λ n. n.start ≤ 10 };
}

impl PaddedNumber {
    /// The number with leading zeros, up to `least` digits.
    pub fn new(number: u32, least: usize) -> PaddedNumber
        requires { least ≤ 10 }
        ensures { result ≡ padded_number least number }
    {
        let mut digits = [b'0'; MOST_DIGITS];
        let start = write_digits(u64::from(number), &mut digits, MOST_DIGITS);
        PaddedNumber {
            digits,
            start: first_shown(start, least),
        }
    }

    /// The control number of a transaction set (X12.6, ST02): with leading zeros up to four digits.
    pub fn of_set(number: u32) -> PaddedNumber
        ensures { result ≡ set_number number }
    {
        PaddedNumber::new(number, 4)
    }

    /// The text.
    pub fn bytes(&self) -> &[u8]
        ensures { result.now ≡ self.now }
    {
        &self.digits[self.start..]
    }
}

/// From where on a number is shown whose first digit is at `start`, in at least that many digits.
fn first_shown(start: usize, least: usize) -> usize
    requires { least ≤ 10 }
    ensures { result ≡ min start (10 - least) }
{
    start.min(MOST_DIGITS - least)
}

/// Writes a text after what is there, with spaces after it up to `least` bytes.
pub(crate) fn append_padded(out: &mut Vec<u8>, text: &[u8], least: usize) -> Result<(), NoMemory>
    requires { least ≤ 15 }
    ensures text { OnOk result (out.new.items ≡ out.old.items ++ padded_text least text.now) }
    ensures kept { Extends out.old.items out.new.items }
{
    out.extend_from_slice(text)?;
    let spaces = least.saturating_sub(text.len());
    out.extend_from_slice(&SPACES[..spaces])?;
    Ok(())
}
