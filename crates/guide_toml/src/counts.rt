ghost use Rattle.std.specs.Prelude.{◌≡◌};
ghost use Rattle.guide_toml.specs.Counts.{count_of};

use toml_keys::GREATEST_NUMBER;

/// The number that one or more digits write, at most `GREATEST_NUMBER`; leading zeros are allowed.
pub(crate) fn count_of(digits: &[u8]) -> Option<u32>
    ensures { result ≡ count_of digits.now }
{
    if digits.is_empty() {
        return None;
    }
    let mut count = 0u32;
    for digit in digits {
        if !digit.is_ascii_digit() {
            return None;
        }
        let next = 10 * u64::from(count) + u64::from(*digit - b'0');
        if next > GREATEST_NUMBER {
            return None;
        }
        count = next as u32;
    }
    Some(count)
}
