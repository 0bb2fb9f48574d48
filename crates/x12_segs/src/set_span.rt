use crate::segs::Segments;
use x12_bytes::Delims;

/// Where a transaction set is in its text (X12.6, from ST to SE), by offsets.
#[derive(Clone, Copy, Debug, PartialEq, Eq)]
pub struct SetSpan {
    /// The offset of the first byte of the set's ST.
    pub start: usize,
    /// The offset after the terminator of the set's last segment.
    pub end: usize,
    /// The delimiters that the set is read by.
    pub delims: Delims,
    /// Whether that last segment is the set's SE.
    pub closed: bool,
}

impl SetSpan {
    ghost use Rattle.std.specs.Prelude.{◌≡◌, ◌≤◌, length};
    ghost use Rattle.x12_segs.specs.Spans.{span_views};

    /// The segments of the span, first to last. A segment's `start` counts from the front of the
    /// text.
    pub fn segments<'a>(&self, text: &'a [u8]) -> Segments<'a>
        requires order { self.now.start ≤ self.now.end }
        requires within { self.now.end ≤ length text.now }
        ensures value { result ≡ span_views text.entry.now self.now }
    {
        Segments::from_offset(&text[..self.end], self.start, self.delims)
    }
}
