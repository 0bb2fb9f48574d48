ghost use Rattle.std.specs.Prelude.{◌≡◌};
ghost use Rattle.guide_toml.specs.Entries.{segment_code_of, element_code_of};

use hub_kinds::{ElementCode, SegmentCode, code_of};

/// The code of a segment fault (999 guide, IK304) that is written as `text`, except 8.
pub(crate) fn segment_code_of(text: &[u8]) -> Option<SegmentCode>
    ensures { result ≡ segment_code_of text.now }
{
    if text == b"8".as_slice() {
        return None;
    }
    code_of::<SegmentCode>(text)
}

/// The code of an element fault (999 guide, IK403) that is written as `text`.
pub(crate) fn element_code_of(text: &[u8]) -> Option<ElementCode>
    ensures { result ≡ element_code_of text.now }
{
    code_of::<ElementCode>(text)
}
