use x12_bytes::Delims;
use x12_segs::{SegView, SetSpan};

/// The envelope of a transaction set (X12.6, transaction set header and trailer). Without a trailer
/// the set ends before the next ST, GE, GS or IEA, or with the interchange.
#[derive(Drop)]
pub struct SetEnvelope<'a> {
    /// Its header (ST).
    pub header: SegView<'a>,
    /// How many segments it has, header and trailer included.
    pub segments: u64,
    /// Its trailer (SE), where it has one.
    pub trailer: Option<SegView<'a>>,
    /// The offset after the terminator of its last segment.
    pub end: usize,
}

impl<'a> SetEnvelope<'a> {
    ghost use Rattle.std.specs.Prelude.{◌≡◌};
    ghost use Rattle.env_index.specs.Spans.{span_of};

    /// The stretch of the text that the set takes, from the first byte of its ST to just after the
    /// terminator of its last segment, read by the delimiters of its interchange (X12.6, transaction
    /// set).
    pub fn span(&self, delims: Delims) -> SetSpan
        ensures { result ≡ span_of delims self.now }
    {
        SetSpan {
            start: self.header.start(),
            end: self.end,
            delims,
            closed: self.trailer.is_some(),
        }
    }
}
