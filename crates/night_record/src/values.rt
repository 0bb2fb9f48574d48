ghost use Rattle.std.specs.Prelude.{◌≡◌, ◌≢◌, ◌≤◌, ◌++◌, ◌↔◌, true, ℕ, List, MatchOption, codes, decimal};
ghost use Rattle.std.specs.Char.{is_ascii_digit};
ghost use Rattle.std.specs.List.{list_all};
ghost use Rattle.night_record.specs.Record.{number_line, text_line};
ghost use Rattle.night_record.specs.Values as values;

use hub_kinds::read_number;
use itoa::Buffer;
use std::cmp::Ordering;

/// The greatest number of a night, and the greatest control number.
const GREATEST: u64 = 999_999_999;

/// How many digits it has.
const MOST_DIGITS: usize = 9;

/// How many digits a moment has, CCYYMMDDHHMM.
const MOMENT_DIGITS: usize = 12;

/// How many digits a sum has.
pub(crate) const SUM_DIGITS: usize = 64;

/// Whether `n` is a number of a night or a control number.
pub(crate) fn is_count(n: u32) -> bool
    ensures { result ≡ values.is_count n }
{
    1 <= n && n <= 999_999_999
}

/// Whether `n` is the exit status of a run.
pub(crate) fn is_status(n: u8) -> bool
    ensures { result ≡ values.is_status n }
{
    n <= 6
}

fn is_name_byte(byte: u8) -> bool
    ensures { result ≡ values.is_name_byte byte }
{
    32 <= byte && (byte != 127 && (byte != b'"' && byte != b'\\'))
}

fn are_name_bytes(text: &[u8]) -> bool
    ensures { result ≡ list_all values.is_name_byte text.now }
{
    text.iter().all(|byte| is_name_byte(*byte))
}

/// Whether `text` is a name.
pub(crate) fn is_name(text: &[u8]) -> bool
    ensures { result ≡ values.is_name text.now }
{
    1 <= text.len() && are_name_bytes(text)
}

fn are_digits(text: &[u8]) -> bool
    ensures { result ≡ list_all is_ascii_digit text.now }
{
    text.iter().all(|byte| byte.is_ascii_digit())
}

/// Whether `text` is a moment.
pub(crate) fn is_moment(text: &[u8]) -> bool
    ensures { result ≡ values.is_moment text.now }
{
    text.len() == MOMENT_DIGITS && are_digits(text)
}

fn is_hex_digit(byte: u8) -> bool
    ensures { result ≡ values.is_hex_digit byte }
{
    byte.is_ascii_digit() || (97 <= byte && byte <= 102)
}

fn are_hex_digits(text: &[u8]) -> bool
    ensures { result ≡ list_all values.is_hex_digit text.now }
{
    text.iter().all(|byte| is_hex_digit(*byte))
}

/// Whether `text` is a sum.
pub(crate) fn is_sum(text: &[u8]) -> bool
    ensures { result ≡ values.is_sum text.now }
{
    text.len() == SUM_DIGITS && are_hex_digits(text)
}

/// Whether `name` comes before `other` in the order of bytes.
pub(crate) fn comes_before(name: &[u8], other: &[u8]) -> bool
    ensures { result ≡ values.comes_before name.now other.now }
{
    name.cmp(other) == Ordering::Less
}

fn is_written(n: u32, text: &[u8]) -> bool
    ensures { (result ≡ true) ↔ (text.now ≡ decimal n) }
{
    let mut digits = Buffer::new();
    digits.format(n).as_bytes() == text
}

/// The number that `text` writes, of at most nine digits and without leading zeros.
pub(crate) fn number_in(text: &[u8]) -> Option<u32>
    ensures { MatchOption result ((n : ℕ) → n ≤ 999999999 → text.now ≢ decimal n)
        (λ n. (text.now ≡ decimal n) × (n ≤ 999999999)) }
{
    match read_number(text, MOST_DIGITS) {
        Some(n) if n <= GREATEST && is_written(n as u32, text) => Some(n as u32),
        Some(_) | None => None,
    }
}

/// What comes after `before` in `text`.
pub(crate) fn rest_after<'a>(text: &'a [u8], before: &[u8]) -> Option<&'a [u8]>
    ensures { MatchOption result ((rest : List ℕ) → text.entry.now ≢ before.now ++ rest)
        (λ rest. text.entry.now ≡ before.now ++ rest.now) }
{
    text.strip_prefix(before)
}

/// What comes before `after` in `text`.
pub(crate) fn rest_before<'a>(text: &'a [u8], after: &[u8]) -> Option<&'a [u8]>
    ensures { MatchOption result ((rest : List ℕ) → text.entry.now ≢ rest ++ after.now)
        (λ rest. text.entry.now ≡ rest.now ++ after.now) }
{
    text.strip_suffix(after)
}

/// What comes after `key` and ` = ` in `line`.
fn value_in<'a>(line: &'a [u8], key: &[u8]) -> Option<&'a [u8]>
    ensures { MatchOption result ((value : List ℕ) → line.entry.now ≢ key.now ++ (codes " = " ++ value))
        (λ value. line.entry.now ≡ key.now ++ (codes " = " ++ value.now)) }
{
    match rest_after(line, key) {
        None => None,
        Some(rest) => rest_after(rest, b" = "),
    }
}

/// What is between the quotation marks of `text`.
pub(crate) fn unquoted<'a>(text: &'a [u8]) -> Option<&'a [u8]>
    ensures { MatchOption result ((value : List ℕ) → text.entry.now ≢ codes "\"" ++ (value ++ codes "\""))
        (λ value. text.entry.now ≡ codes "\"" ++ (value.now ++ codes "\"")) }
{
    match rest_after(text, b"\"") {
        None => None,
        Some(rest) => rest_before(rest, b"\""),
    }
}

/// The text of `key` in `line`.
pub(crate) fn text_in<'a>(line: &'a [u8], key: &[u8]) -> Option<&'a [u8]>
    ensures { MatchOption result ((value : List ℕ) → line.entry.now ≢ text_line key.now value)
        (λ value. line.entry.now ≡ text_line key.now value.now) }
{
    match value_in(line, key) {
        None => None,
        Some(value) => unquoted(value),
    }
}

/// The number of `key` in `line`.
pub(crate) fn number_of(line: &[u8], key: &[u8]) -> Option<u32>
    ensures { MatchOption result ((n : ℕ) → n ≤ 999999999 → line.now ≢ number_line key.now n)
        (λ n. (line.now ≡ number_line key.now n) × (n ≤ 999999999)) }
{
    match value_in(line, key) {
        None => None,
        Some(value) => number_in(value),
    }
}
