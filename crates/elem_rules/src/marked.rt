ghost use Rattle.std.specs.Prelude.{◌≡◌, ◌+◌, ◌<◌, length, slice_index_or};
ghost use Rattle.memchr.specs.Find.{is_byte, places};
ghost use Rattle.guide_tree.specs.Words.{element_at};
ghost use Rattle.x12_segs.specs.Words.{elements_of};

use x12_segs::SegView;

/// The offset at an index, or `end` after the last one.
#[inline(always)]
fn offset_or(offsets: &[usize], index: usize, end: usize) -> usize
    ensures { result ≡ slice_index_or offsets.now index end }
{
    if index < offsets.len() {
        return offsets[index];
    }
    end
}

/// The element after separator `k`, counted from 0.
#[inline(always)]
pub(crate) fn element_behind<'a>(seg: &SegView<'a>, separators: &[usize], k: usize) -> &'a [u8]
    requires places { separators.now ≡ places (is_byte seg.now.delims.element) seg.now.bytes }
    requires within { k < length separators.now }
    ensures { result.now ≡ element_at (elements_of seg.now) (k + 1) }
{
    let bytes = seg.bytes();
    let from = separators[k] + 1;
    let to = offset_or(separators, k + 1, bytes.len());
    &bytes[from..to]
}
