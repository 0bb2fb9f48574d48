ghost use Rattle.std.specs.Prelude.{◌≡◌, ◌^◌, ◌<◌, ◌≤◌, IfSome, length, All};
ghost use Rattle.std.specs.Bool.{OnTrue};
ghost use Rattle.std.specs.Char.{IsAsciiDigit, is_ascii_digit, is_ascii_alphanumeric};
ghost use Rattle.std.specs.List.{list_all};
ghost use Rattle.hub_kinds.specs.Numbers.{number_of, value_of};
ghost use Rattle.hub_kinds.specs.Characters.{is_word};

/// The number that 1 to `most` ASCII digits write, leading zeros allowed; none for any other text.
/// X12.6, data element type N0 without a sign.
pub fn read_number(text: &[u8], most: usize) -> Option<u64>
    requires { most ≤ 19 }
    ensures value { result ≡ number_of most text.now }
    ensures bound { IfSome result (λ n. n < 10 ^ length text.now) }
{
    if 1 <= text.len() && text.len() <= most && are_digits(text) {
        Some(value(text))
    } else {
        None
    }
}

/// Whether a text is `least` to `most` ASCII letters or digits.
pub fn is_alphanumeric(text: &[u8], least: usize, most: usize) -> bool
    ensures { result ≡ is_word least most text.now }
{
    least <= text.len() && text.len() <= most && are_alphanumeric(text)
}

fn are_digits(text: &[u8]) -> bool
    ensures test { result ≡ list_all is_ascii_digit text.now }
    ensures each { OnTrue result (All IsAsciiDigit text.now) }
{
    text.iter().all(|b| b.is_ascii_digit())
}

fn are_alphanumeric(text: &[u8]) -> bool
    ensures { result ≡ list_all is_ascii_alphanumeric text.now }
{
    text.iter().all(|b| b.is_ascii_alphanumeric())
}

fn value(digits: &[u8]) -> u64
    requires len { length digits.now ≤ 19 }
    requires each { All IsAsciiDigit digits.now }
    ensures value { result ≡ value_of digits.now }
    ensures bound { result < 10 ^ length digits.now }
{
    let mut number = 0u64;
    for digit in digits {
        number = 10 * number + u64::from(*digit - b'0');
    }
    number
}
