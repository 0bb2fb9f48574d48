ghost use Rattle.std.specs.Prelude.{◌≡◌};
ghost use Rattle.x12_bytes.specs.Spaces.{without_trailing_spaces};

/// A text without the spaces at its end, as ids are read (X12.5, ISA06 and ISA08). Only the space
/// is cut off, no other blank.
pub fn without_trailing_spaces(text: &[u8]) -> &[u8]
    ensures { result.now ≡ without_trailing_spaces text.now }
{
    let mut end = text.len();
    while end > 0 && text[end - 1] == b' ' {
        end -= 1;
    }
    &text[..end]
}
