ghost use Rattle.std.specs.Prelude.{◌≡◌, ◌+◌, IfSome, slice_index_or};
ghost use Rattle.x12_segs.specs.Words.{elements_of};
ghost use Rattle.guide_tree.specs.Words.{element_at};
ghost use Rattle.hl_check.specs.Names.{names_of};
ghost use Rattle.marked_segments.specs.Marked.{IsPlain};

use hl_check::HlNames;
use x12_segs::SegView;

/// The offset at an index, or `end` after the last one.
#[inline]
fn offset_or(offsets: &[usize], index: usize, end: usize) -> usize
    ensures { result ≡ slice_index_or offsets.now index end }
{
    if index < offsets.len() {
        return offsets[index];
    }
    end
}

/// The element at an index, from 0, of a segment whose element separators are at these offsets of its bytes; the empty text where it
/// isn't there.
#[inline]
fn element_at<'a>(seg: &SegView<'a>, separators: &[usize], k: usize) -> &'a [u8]
    requires { IsPlain separators.now seg.now }
    ensures { result.now ≡ element_at (elements_of seg.now) (k + 1) }
{
    if k >= separators.len() {
        return b"";
    }
    let bytes = seg.bytes();
    let from = separators[k] + 1;
    let to = offset_or(separators, k + 1, bytes.len());
    &bytes[from..to]
}

/// HL01 to HL04 of a segment, by the places of its element separators, if it is plain.
pub(crate) fn names_of<'a>(seg: &SegView<'a>, plain: Option<&[usize]>) -> HlNames<'a>
    requires { IfSome plain (λ separators. IsPlain separators.now seg.now) }
    ensures { result ≡ names_of (elements_of seg.now) }
{
    match plain {
        Some(separators) => HlNames::new(
            element_at(seg, separators, 0),
            element_at(seg, separators, 1),
            element_at(seg, separators, 2),
            element_at(seg, separators, 3),
        ),
        None => {
            let (number, parent, level) = seg.first_elements();
            HlNames::new(number, parent, level, seg.element(4))
        }
    }
}
