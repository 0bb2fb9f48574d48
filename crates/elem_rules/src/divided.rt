ghost use Rattle.std.specs.Prelude.{◌≡◌, [], drop, slice_index_or};
ghost use Rattle.elem_rules.specs.Divided.{is_inner_separator, is_empty, has_more};

use x12_bytes::Delims;
use x12_segs::Parts;

fn is_inner_separator(delims: Delims, byte: u8) -> bool
    ensures { result ≡ is_inner_separator delims byte }
{
    byte == delims.component || delims.repetition == Some(byte)
}

/// Whether a text has no byte other than component and repetition separators (own).
pub fn is_empty(delims: Delims, text: &[u8]) -> bool
    ensures { result ≡ is_empty delims text.now }
{
    text.iter().all(|byte| is_inner_separator(delims, *byte))
}

/// Whether there are more than `n` parts: one after the first `n` isn't empty.
pub(crate) fn has_more(delims: Delims, n: usize, parts: Parts) -> bool
    ensures { result ≡ has_more delims n parts.entry }
{
    parts.skip(n).any(|part| !is_empty(delims, part))
}

/// The next part; the empty text where none is left.
pub(crate) fn next_part<'a>(parts: &mut Parts<'a>) -> &'a [u8]
    ensures text { result.now ≡ slice_index_or parts.old 0 [] }
    ensures rest { parts.new ≡ drop 1 parts.old }
{
    parts.next().unwrap_or(b"")
}

/// Part `n`, from 0; the empty text where it isn't there.
pub(crate) fn part_at<'a>(parts: Parts<'a>, n: usize) -> &'a [u8]
    ensures { result.now ≡ slice_index_or parts.entry n [] }
{
    let mut parts = parts;
    parts.nth(n).unwrap_or(b"")
}
