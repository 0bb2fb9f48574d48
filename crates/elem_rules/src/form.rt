ghost use Rattle.std.specs.Prelude.{◌≡◌, ◌≤◌, ◌==◌, ◌||◌, Some, None, false, true, length, if◌then◌else◌};
ghost use Rattle.std.specs.List.{list_any, list_all, count_by};
ghost use Rattle.std.specs.Bool.{OnTrue};
ghost use Rattle.std.specs.Char.{is_ascii_digit};
ghost use Rattle.elem_rules.specs.Clean.{is_strange};
ghost use Rattle.elem_rules.specs.Values.{is_character, without_sign, is_whole, is_point, is_decimal, is_form, value_length};

use guide_tree::ElementType;
use moment::is_digits;

/// Whether a byte is a character of a text: from space to tilde, and from 0x80 on where `wide` is true (X12.6, string data element types).
pub(crate) fn is_character(byte: u8, wide: bool) -> bool
    ensures { result ≡ is_character wide byte }
{
    matches!(byte, b' '..=b'~') || (wide && byte >= 0x80)
}

fn are_characters(text: &[u8], wide: bool) -> bool
    ensures { result ≡ list_all (is_character wide) text.now }
{
    text.iter().all(|byte| is_character(*byte, wide))
}

/// Whether `text` has only characters that are allowed; where `narrow` is true, they are known to be from space to tilde.
fn are_known_characters(text: &[u8], wide: bool, narrow: bool) -> bool
    requires { OnTrue narrow (list_any is_strange text.now ≡ false) }
    ensures { result ≡ list_all (is_character wide) text.now }
{
    if narrow {
        return true;
    }
    are_characters(text, wide)
}

/// A number without the minus sign that it may begin with.
fn without_sign(text: &[u8]) -> &[u8]
    ensures { result.now ≡ without_sign text.now }
{
    match text {
        [b'-', digits @ ..] => digits,
        _ => text,
    }
}

/// Whether a text is a whole number without sign: one or more digits, and nothing else (X12.6, N).
pub(crate) fn is_whole(text: &[u8]) -> bool
    ensures { result ≡ is_whole text.now }
{
    !text.is_empty() && is_digits(text)
}

fn are_digits_or_points(text: &[u8]) -> bool
    ensures { result ≡ list_all (λ byte. is_ascii_digit byte || is_point byte) text.now }
{
    text.iter()
        .all(|byte| byte.is_ascii_digit() || *byte == b'.')
}

fn points(text: &[u8]) -> usize
    ensures value { result ≡ count_by is_point text.now }
    ensures bound { result ≤ length text.now }
{
    text.iter().filter(|byte| **byte == b'.').count()
}

/// The digits of a decimal number without sign, if it has the form of one.
pub(crate) fn decimal_digits(text: &[u8]) -> Option<usize>
    ensures { result ≡ if is_decimal text.now then Some (count_by is_ascii_digit text.now) else None }
{
    if !are_digits_or_points(text) {
        return None;
    }
    let points = points(text);
    let digits = text.len() - points;
    if points > 1 {
        return None;
    }
    if digits == 0 {
        return None;
    }
    Some(digits)
}

/// The digits of a whole number without sign, if it has the form of one.
fn whole_digits(text: &[u8]) -> Option<usize>
    ensures { result ≡ if is_whole text.now then Some (length text.now) else None }
{
    if is_whole(text) {
        Some(text.len())
    } else {
        None
    }
}

/// The length of a value, where it has the bytes and the form that its type allows: its bytes, or the digits of a number,
/// whose sign and point don't count. Where `narrow` is true, its bytes are known to be characters from space to tilde.
pub(crate) fn measured(
    data_type: ElementType,
    wide: bool,
    text: &[u8],
    narrow: bool,
) -> Option<usize>
    requires { OnTrue narrow (list_any is_strange text.now ≡ false) }
    ensures { result ≡ if is_form data_type wide text.now then Some (value_length data_type text.now) else None }
{
    match data_type {
        ElementType::Text | ElementType::Identifier => {
            if are_known_characters(text, wide, narrow) {
                Some(text.len())
            } else {
                None
            }
        }
        ElementType::Number(_) => whole_digits(without_sign(text)),
        ElementType::Decimal => decimal_digits(without_sign(text)),
        ElementType::Date | ElementType::Time => {
            if is_digits(text) {
                Some(text.len())
            } else {
                None
            }
        }
    }
}
