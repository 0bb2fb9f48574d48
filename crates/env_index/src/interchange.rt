use crate::entry::SetEnvelope;
use crate::places::{BodyPlace, GroupPlace};
use crate::segment_at::{behind_segment, segment_at, set_trailer, trailer_at};
use std::marker::Model;
use x12_bytes::{Delims, Header};
use x12_segs::SegView;

/// An interchange of a text: its header and the envelopes after it, lent from the text (X12.5,
/// interchange).
#[derive(Drop)]
pub struct Interchange<'a> {
    text: &'a [u8],
    header: Header<'a>,
    start: usize,
    body: BodyPlace,
}

impl<'a> Model for Interchange<'a> {
    ghost use Rattle.x12_bytes.specs.Header.{header_delims};
    ghost use Rattle.env_index.specs.Interchange.{InterchangeEntry};

    ghost Value = { InterchangeEntry };

    ghost use Rattle.env_index.specs.Places.{body_in};

    ghost view = { λ x. record {
      header = x.header;
      start = x.start;
      end = x.body.end;
      content = body_in x.text.now (header_delims x.header) x.body;
    } };
}

impl<'a> Interchange<'a> {
    ghost use Rattle.std.specs.Prelude.{◌≡◌, ◌<◌, length, Some, slice_get};
    ghost use Rattle.x12_bytes.specs.Header.{header_delims};
    ghost use Rattle.env_index.specs.Places.{body_in};

    pub(crate) fn new(text: &'a [u8], header: Header<'a>, start: usize, body: BodyPlace) -> Self
        ensures { result
            ≡ record {
              header = header.entry;
              start = start;
              end = body.end;
              content = body_in text.entry.now (header_delims header.entry) body;
            } }
    {
        Interchange {
            text,
            header,
            start,
            body,
        }
    }

    /// Its header (ISA).
    pub fn header(&self) -> &Header<'a>
        ensures { result.now ≡ self.now.header }
    {
        &self.header
    }

    /// The offset of its first byte in the text.
    pub fn start(&self) -> usize
        ensures { result ≡ self.now.start }
    {
        self.start
    }

    /// The offset after its last byte in the text.
    pub fn end(&self) -> usize
        ensures { result ≡ self.now.end }
    {
        self.body.end
    }

    /// How many interchange acknowledgments (TA1) are directly in it, outside groups.
    pub fn ta1s(&self) -> u32
        ensures { result ≡ self.now.content.ta1s }
    {
        self.body.ta1s
    }

    /// Whether one of its segments is out of place: directly in it one other than GS, IEA and TA1,
    /// or in a group, outside its sets, one other than ST, GE, GS and IEA.
    pub fn is_misplaced(&self) -> bool
        ensures { result ≡ self.now.content.misplaced }
    {
        self.body.misplaced
    }

    /// Its trailer (IEA), where it has one.
    pub fn trailer(&self) -> Option<SegView<'a>>
        ensures { result ≡ self.now.content.trailer }
    {
        trailer_at(self.text, self.header.delims(), self.body.trailer)
    }

    /// How many groups it has.
    pub fn group_count(&self) -> usize
        ensures { result ≡ length self.now.content.groups }
    {
        self.body.groups.len()
    }

    /// One of its groups, in the order of the text, counted from 0.
    pub fn group(&self, index: usize) -> GroupEnvelope<'_, 'a>
        requires { index < length self.now.content.groups }
        ensures { slice_get self.now.content.groups index ≡ Some result }
    {
        GroupEnvelope {
            text: self.text,
            delims: self.header.delims(),
            place: &self.body.groups[index],
        }
    }
}

/// A functional group of an interchange, lent from the index of the interchange; what it lends itself
/// is lent from the text, and lives as long as that (X12.6, functional group header and trailer).
/// Without a trailer it ends before the next GS or IEA, or with the interchange.
#[derive(Drop)]
pub struct GroupEnvelope<'i, 'a> {
    text: &'a [u8],
    delims: Delims,
    place: &'i GroupPlace,
}

impl<'i, 'a> Model for GroupEnvelope<'i, 'a> {
    ghost use Rattle.env_index.specs.Summary.{GroupEntry};

    ghost Value = { GroupEntry };

    ghost use Rattle.env_index.specs.Places.{group_in};

    ghost view = { λ g. group_in g.text.now g.delims g.place.now };
}

impl<'i, 'a> GroupEnvelope<'i, 'a> {
    ghost use Rattle.std.specs.Prelude.{◌≡◌, ◌<◌, length, Some, option_map, slice_get};
    ghost use Rattle.env_index.specs.declared.entry.SetEnvelope.{SetEnvelope};

    /// Its header (GS).
    pub fn header(&self) -> SegView<'a>
        ensures { result ≡ self.now.header }
    {
        segment_at(self.text, self.delims, self.place.header)
    }

    /// Its trailer (GE), where it has one.
    pub fn trailer(&self) -> Option<SegView<'a>>
        ensures { result ≡ self.now.trailer }
    {
        trailer_at(self.text, self.delims, self.place.trailer)
    }

    /// How many sets it has.
    pub fn set_count(&self) -> usize
        ensures { result ≡ length self.now.sets }
    {
        self.place.sets.len()
    }

    /// One of its sets, in the order of the text, counted from 0.
    pub fn set(&self, index: usize) -> SetEnvelope<'a>
        requires { index < length self.now.sets }
        ensures { slice_get self.now.sets index ≡ Some result }
    {
        let place = self.place.sets[index];
        SetEnvelope {
            header: segment_at(self.text, self.delims, place.header),
            segments: u64::from(place.segments),
            trailer: set_trailer(self.text, self.delims, &place),
            end: behind_segment(self.text, self.delims, place.last),
        }
    }

    /// The header (ST) of one of its sets, counted from 0, without a look at the rest of it.
    pub fn set_header(&self, index: usize) -> SegView<'a>
        requires { index < length self.now.sets }
        ensures { option_map (λ (set : SetEnvelope). set.header) (slice_get self.now.sets index) ≡ Some result }
    {
        segment_at(self.text, self.delims, self.place.sets[index].header)
    }
}
