ghost use Rattle.std.specs.Prelude.{◌≡◌, ◌≤◌, List, map, length};
ghost use Rattle.std.specs.Iterator.{YieldsFirst, item_count};
ghost use Rattle.x12_segs.specs.Segs.{segs_from};
ghost use Rattle.x12_segs.specs.View.{SegValue, view_of, views};

use crate::part::Part;
use crate::scan::next_part;
use crate::view::SegView;
use std::marker::Model;
use x12_bytes::Delims;

/// The segments of a text that are still to come. Contracts see their list.
#[derive(Drop)]
pub struct Segments<'a> {
    text: &'a [u8],
    at: usize,
    delims: Delims,
}

impl<'a> Model for Segments<'a> {
    ghost Value = { List SegValue };

    ghost view = { λ s. map (view_of s.delims) (segs_from s.text.now s.delims.terminator s.at) };

    ghost invariant = { λ s. s.at ≤ length s.text.now };
}

impl<'a> Segments<'a> {
    pub(crate) fn new(text: &'a [u8], delims: Delims) -> Self
        ensures value { result ≡ views text.entry.now delims }
        ensures len { length result ≤ length text.entry.now }
    {
        Segments {
            text,
            at: 0,
            delims,
        }
    }
}

impl<'a> Segments<'a> {
    /// The segments from an offset of a text on.
    pub(crate) fn from_offset(text: &'a [u8], at: usize, delims: Delims) -> Self
        requires { at ≤ length text.now }
        ensures { result ≡ map (view_of delims) (segs_from text.entry.now delims.terminator at) }
    {
        Segments { text, at, delims }
    }
}

impl<'a> Iterator for Segments<'a> {
    type Item = SegView<'a>;

    ghost next_gives = { YieldsFirst (λ rest. rest) };

    ghost remaining = { item_count (λ rest. rest) };

    fn next(&mut self) -> Option<SegView<'a>> {
        match next_part(self.text, self.at, self.delims.terminator) {
            Part::Segment { start, end } => {
                let view = SegView::new(start, &self.text[start..end], self.delims);
                self.at = end + 1;
                Some(view)
            }
            Part::Rest { .. } => None,
        }
    }
}
