ghost use Rattle.std.specs.Prelude.{◌≡◌, option_map};
ghost use Rattle.env_index.specs.Extents.{behind};
ghost use Rattle.env_index.specs.Places.{seg_in, trailer_in};

use crate::places::{SetPlace, Stretch};
use x12_bytes::Delims;
use x12_segs::SegView;

/// The segment that is at a place of the text.
pub(crate) fn segment_at<'a>(text: &'a [u8], delims: Delims, place: Stretch) -> SegView<'a>
    ensures { result ≡ seg_in text.entry.now delims place }
{
    // What lies after the text's end isn't a byte of the segment, so any place may be asked for.
    let end = text.len().min(place.end as usize);
    let start = end.min(place.start as usize);
    SegView::new(place.start as usize, &text[start..end], delims)
}

/// The trailer that is at a place of the text, where there is one.
pub(crate) fn trailer_at<'a>(
    text: &'a [u8],
    delims: Delims,
    place: Option<Stretch>,
) -> Option<SegView<'a>>
    ensures { result ≡ option_map (seg_in text.entry.now delims) place }
{
    match place {
        Some(place) => Some(segment_at(text, delims, place)),
        None => None,
    }
}

/// The offset after the terminator of the segment that is at a place of the text.
pub(crate) fn behind_segment(text: &[u8], delims: Delims, place: Stretch) -> usize
    ensures { result ≡ behind (seg_in text.now delims place) }
{
    let segment = segment_at(text, delims, place);
    place.start as usize + segment.bytes().len() + 1
}

/// The SE of a set, where it has one.
pub(crate) fn set_trailer<'a>(
    text: &'a [u8],
    delims: Delims,
    place: &SetPlace,
) -> Option<SegView<'a>>
    ensures { result ≡ trailer_in place.now.closed (seg_in text.entry.now delims place.now.last) }
{
    if place.closed {
        Some(segment_at(text, delims, place.last))
    } else {
        None
    }
}
