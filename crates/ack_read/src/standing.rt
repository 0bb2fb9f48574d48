ghost use Rattle.std.specs.Prelude.{◌≡◌, ◌<◌, ◌++◌, OnOk, IfOk, [], ◌∷◌};
ghost use Rattle.x12_segs.specs.Words.{elements_of};
ghost use Rattle.night_definition.specs.Segments.{element};
ghost use Rattle.ack_read.specs.Told as told;
ghost use Rattle.ack_read.specs.declared.told.NoteTold.TheVariants.{OfElement, OfSegment};

use crate::kind::{AckKind, ack_kind};
use crate::parts::{again, element_told, lent_texts, next_lent, segment_told};
use crate::told::{GroupTold, NoteTold, SegmentTold, SetTold, Ta1Told, Told};
use hub_kinds::{Items, Lent, NoMemory};
use std::alloc::Global;
use std::marker::Model;
use std::mem;
use x12_bytes::Delims;
use x12_segs::SegView;

/// Where a segment of acknowledgments is: what those before it say of it.
#[derive(Drop)]
pub(crate) struct Standing<'a> {
    interchange: u64,
    functional_id: &'a [u8],
    group_control: &'a [u8],
    identifier: &'a [u8],
    control: &'a [u8],
    segment: SegmentTold<'a>,
    notes: Vec<NoteTold<'a>>,
}

impl<'a> Model for Standing<'a> {
    ghost Value = { told.Standing };

    ghost view = { λ s. record {
      interchange = s.interchange;
      functional_id = s.functional_id.now;
      group_control = s.group_control.now;
      identifier = s.identifier.now;
      control = s.control.now;
      segment = s.segment;
      notes = s.notes.items;
    } };
}

impl<'a> Standing<'a> {
    /// At the begin of a text.
    pub(crate) fn at_begin(alloc: Global) -> Standing<'a>
        ensures { result ≡ told.at_begin }
    {
        Standing {
            interchange: 0,
            functional_id: b"",
            group_control: b"",
            identifier: b"",
            control: b"",
            segment: SegmentTold {
                id: Lent::new(b""),
                position: Lent::new(b""),
                loop_id: Lent::new(b""),
                code: Lent::new(b""),
            },
            notes: Vec::new(alloc),
        }
    }

    /// Goes past a segment, and adds what it reports.
    pub(crate) fn pass(
        &mut self,
        alloc: Global,
        delims: Delims,
        segment: &SegView<'a>,
        found: &mut Vec<Told<'a>>,
    ) -> Result<(), NoMemory>
        requires { self.old.interchange < 18446744073709551615 }
        ensures told { OnOk result (found.new.items ≡ found.old.items ++ told.reports_of_segment self.old (elements_of segment.now)) }
        ensures behind { OnOk result (self.new ≡ told.behind delims self.old (elements_of segment.now)) }
    {
        match ack_kind(segment.id()) {
            AckKind::InterchangeHeader => self.interchange += 1,
            AckKind::GroupHeader => self.begin_group(segment),
            AckKind::SetHeader => self.begin_set(segment),
            AckKind::SegmentNote => self.note_segment(segment)?,
            AckKind::ElementNote => self.note_element(delims, segment)?,
            AckKind::Ta1 => found.push(Told::OfInterchange(self.ta1(segment)))?,
            AckKind::SetResponse => found.push(Told::OfSet(self.end_set(alloc, segment)?))?,
            AckKind::GroupResponse => found.push(Told::OfGroup(self.group(alloc, segment)?))?,
            AckKind::Other => {}
        }
        Ok(())
    }

    fn begin_group(&mut self, segment: &SegView<'a>)
        ensures { self.new ≡ record self.old {
          functional_id = element 1 (elements_of segment.now);
          group_control = element 2 (elements_of segment.now);
        } }
    {
        let mut elements = segment.elements();
        self.functional_id = elements.next_or_empty();
        self.group_control = elements.next_or_empty();
    }

    fn begin_set(&mut self, segment: &SegView<'a>)
        ensures { self.new ≡ record self.old {
          identifier = element 1 (elements_of segment.now);
          control = element 2 (elements_of segment.now);
          notes = [];
        } }
    {
        let mut elements = segment.elements();
        self.identifier = elements.next_or_empty();
        self.control = elements.next_or_empty();
        self.notes.clear();
    }

    fn note_segment(&mut self, segment: &SegView<'a>) -> Result<(), NoMemory>
        ensures { OnOk result (self.new ≡ record self.old {
          segment = told.segment_told (elements_of segment.now);
          notes = self.old.notes ++ OfSegment (told.segment_told (elements_of segment.now)) ∷ [];
        }) }
    {
        self.segment = segment_told(segment);
        self.notes.push(NoteTold::OfSegment(again(&self.segment)))?;
        Ok(())
    }

    fn note_element(&mut self, delims: Delims, segment: &SegView<'a>) -> Result<(), NoMemory>
        ensures { OnOk result (self.new ≡ record self.old {
          notes = self.old.notes ++ OfElement self.old.segment (told.element_told delims (elements_of segment.now)) ∷ [];
        }) }
    {
        let element = element_told(delims, segment);
        self.notes
            .push(NoteTold::OfElement(again(&self.segment), element))?;
        Ok(())
    }

    /// What a TA1 reports.
    fn ta1(&self, segment: &SegView<'a>) -> Ta1Told<'a>
        ensures { result ≡ told.ta1_told self.now (elements_of segment.now) }
    {
        let mut elements = segment.elements();
        Ta1Told {
            interchange: self.interchange,
            control: next_lent(&mut elements),
            date: next_lent(&mut elements),
            time: next_lent(&mut elements),
            code: next_lent(&mut elements),
            note: next_lent(&mut elements),
        }
    }

    /// What an IK5 reports, with all that was reported of its set.
    fn end_set(&mut self, alloc: Global, segment: &SegView<'a>) -> Result<SetTold<'a>, NoMemory>
        ensures told { IfOk result (λ set. set ≡ told.set_told self.old (elements_of segment.now)) }
        ensures behind { IfOk result (λ _. self.new ≡ record self.old { notes = [] }) }
    {
        let mut elements = segment.elements();
        let code = next_lent(&mut elements);
        let codes = lent_texts(alloc, elements)?;
        let notes = mem::replace(&mut self.notes, Vec::new(alloc));
        Ok(SetTold {
            interchange: self.interchange,
            functional_id: Lent::new(self.functional_id),
            group_control: Lent::new(self.group_control),
            identifier: Lent::new(self.identifier),
            control: Lent::new(self.control),
            notes: Items::from_vec(notes),
            code,
            codes,
        })
    }

    /// What an AK9 reports.
    fn group(&self, alloc: Global, segment: &SegView<'a>) -> Result<GroupTold<'a>, NoMemory>
        ensures { IfOk result (λ group. group ≡ told.group_told self.now (elements_of segment.now)) }
    {
        let mut elements = segment.elements();
        let code = next_lent(&mut elements);
        let listed = next_lent(&mut elements);
        let received = next_lent(&mut elements);
        let accepted = next_lent(&mut elements);
        let codes = lent_texts(alloc, elements)?;
        Ok(GroupTold {
            interchange: self.interchange,
            functional_id: Lent::new(self.functional_id),
            control: Lent::new(self.group_control),
            code,
            listed,
            received,
            accepted,
            codes,
        })
    }
}
