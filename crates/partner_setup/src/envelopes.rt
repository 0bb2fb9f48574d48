ghost use Rattle.std.specs.Prelude.{◌≡◌, [], ◌∷◌};
ghost use Rattle.partner_setup.specs.Envelopes as envelopes;

use crate::partner::Partner;
use crate::rows::{HubRow, Usage};
use crate::setup::Setup;
use hub_kinds::Lent;
use x12_bytes::Delims;
use x12_write::Envelope;

/// ISA15.
fn usage_byte(usage: Usage) -> u8
    ensures { result ≡ envelopes.usage_byte usage }
{
    match usage {
        Usage::Production => b'P',
        Usage::Test => b'T',
    }
}

/// ISA11.
fn repetition_byte(delims: &Delims) -> u8
    ensures { result ≡ envelopes.repetition_byte delims.now }
{
    match delims.repetition {
        None => b'U',
        Some(byte) => byte,
    }
}

fn envelope_between<'a>(hub: &'a HubRow, partner: &'a Partner) -> Envelope<'a>
    ensures { result ≡ envelopes.envelope_between hub.entry.now partner.entry.now }
{
    Envelope {
        hub_qualifier: Lent::new(hub.qualifier.as_slice()),
        hub_id: Lent::new(hub.id.as_slice()),
        hub_code: Lent::new(hub.code.as_slice()),
        partner_qualifier: Lent::new(partner.qualifier.as_slice()),
        partner_id: Lent::new(partner.id.as_slice()),
        partner_code: Lent::new(partner.code.as_slice()),
        usage: usage_byte(hub.usage),
        repetition: repetition_byte(&partner.delims),
        delims: partner.delims,
    }
}

impl Setup {
    ghost use Rattle.std.specs.Prelude.{◌≡◌, ◌<◌, Some, length, option_map, slice_get};
    ghost use Rattle.x12_write.specs.Sendable.{IsSendable};
    ghost use Rattle.partner_setup.specs.Envelopes.{envelope_to};

    /// The envelope in which the hub sends to the partner at a place (X12.5, interchange control header; X12.6, functional
    /// group header), in the partner's delimiters. Its interchange header can be read again.
    pub fn envelope_to(&self, partner: usize) -> Envelope<'_>
        requires { partner < length self.now.partners }
        ensures envelope { option_map (envelope_to self.now) (slice_get self.now.partners partner) ≡ Some result }
        ensures sendable { IsSendable result }
    {
        envelope_between(self.hub(), &self.partners()[partner])
    }
}
