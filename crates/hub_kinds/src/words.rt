ghost use Rattle.std.specs.Prelude.{◌≡◌};
ghost use Rattle.std.specs.List.{list_all};
ghost use Rattle.hub_kinds.specs.Characters.{is_segment_id, is_upper_or_digit};

/// Whether a text has the form of a segment's id: 2 or 3 upper-case ASCII letters or digits (X12.6, segment
/// identifier).
pub fn is_segment_id(text: &[u8]) -> bool
    ensures { result ≡ is_segment_id text.now }
{
    2 <= text.len() && text.len() <= 3 && are_upper_or_digits(text)
}

fn are_upper_or_digits(text: &[u8]) -> bool
    ensures { result ≡ list_all is_upper_or_digit text.now }
{
    text.iter()
        .all(|byte| byte.is_ascii_uppercase() || byte.is_ascii_digit())
}
