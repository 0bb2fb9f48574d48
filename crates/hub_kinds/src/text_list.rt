ghost use Rattle.std.specs.Prelude.{◌≡◌};
ghost use Rattle.std.specs.Str.{bytes_eq};
ghost use Rattle.hub_kinds.specs.TextList.{contains_text};

use crate::items::Text;

/// Whether the text is one of the list, byte for byte (own).
pub fn contains_text(texts: &[Text], text: &[u8]) -> bool
    ensures { result ≡ contains_text texts.now text.now }
{
    texts.iter().any(|listed| is_same(listed.as_slice(), text))
}

/// Whether two texts are the same; most texts of a list differ from another by their length or their first byte.
fn is_same(listed: &[u8], text: &[u8]) -> bool
    ensures { result ≡ bytes_eq listed.now text.now }
{
    listed.len() == text.len() && listed == text
}
