use crate::envelope::Envelope;
use crate::front::append_front;
use crate::header::{append_rest, back_of};
use hub_kinds::NoMemory;
use moment::At;
use std::alloc::Global;
use std::marker::Model;

/// How long what is before ISA13 is, in a header of fixed width.
const FRONT_LEN: usize = 90;

/// The header of the interchanges that are sent in one envelope at one moment (X12.5, ISA), all but its number: made once, and
/// written for each. Contracts see what is before the number, and what is after it.
#[derive(Debug, Drop)]
pub struct OutboundHeader {
    front: Vec<u8>,
    back: [u8; 7],
}

impl Model for OutboundHeader {
    ghost use Rattle.x12_write.specs.Outbound.{HeaderEnds};

    ghost Value = { HeaderEnds };

    ghost view = { λ h. record { front = h.front.items; back = h.back } };
}

impl OutboundHeader {
    ghost use Rattle.std.specs.Prelude.{◌≡◌, ◌++◌, ℕ, List, length, IfOk, OnOk};
    ghost use Rattle.x12_write.specs.declared.envelope.Envelope.{Envelope};
    ghost use Rattle.x12_write.specs.Extends.{Extends};
    ghost use Rattle.x12_write.specs.Outbound.{AreHeaderEnds, numbered_header};
    ghost use Rattle.x12_write.specs.Sendable.{BeginsWithHeader};

    /// The header of an envelope and a moment. The only error is out of memory.
    pub fn new(alloc: Global, envelope: &Envelope, at: &At) -> Result<OutboundHeader, NoMemory>
        ensures { IfOk result (AreHeaderEnds envelope.now at.now) }
    {
        let mut front = Vec::with_capacity(alloc, FRONT_LEN)?;
        append_front(&mut front, envelope, at)?;
        Ok(OutboundHeader {
            front,
            back: back_of(envelope),
        })
    }

    /// Writes the header of interchange `number` after what is there: one that is read again, where the envelope is fit to be
    /// sent and the number has at most nine digits. The envelope isn't looked at again.
    pub fn append(&self, out: &mut Vec<u8>, number: u32) -> Result<(), NoMemory>
        ensures text { OnOk result (out.new.items ≡ out.old.items ++ numbered_header self.now number) }
        ensures header { OnOk result ((e : Envelope) (at : List ℕ) → AreHeaderEnds e at self.now
            → BeginsWithHeader e at number out.new.items (length out.old.items)) }
        ensures kept { Extends out.old.items out.new.items }
    {
        out.extend_from_slice(self.front.as_slice())?;
        append_rest(out, number, &self.back)
    }
}
