ghost use Rattle.std.specs.Prelude.{◌≡◌, ◌++◌, ◌<◌, OnOk, length, slice_get};
ghost use Rattle.x12_write.specs.Group.{group_header_text};
ghost use Rattle.mailbox.specs.Mailbox.{code_by};
ghost use Rattle.mailbox.specs.Rendered.{group_of, header_of};
ghost use Rattle.mailbox.specs.Woven.{HasWoven};

use crate::rendered::Rendered;
use crate::woven::Cut;
use hub_kinds::{Lent, NoMemory};
use moment::At;
use partner_setup::{Partner, Setup};
use x12_write::{GroupHeader, append_group_header, append_group_trailer};

/// The application code of the partner at this place, the sender.
fn code_at(setup: &Setup, sender: usize) -> &[u8]
    ensures { result.now ≡ code_by (slice_get setup.now.partners sender) }
{
    match setup.partner_at(sender) {
        Some(partner) => partner.code.as_slice(),
        None => b"",
    }
}

/// Writes the GS of these values.
fn append_header_line<'x>(
    out: &mut Vec<u8>,
    partner: &'x Partner,
    at: &At,
    control: u32,
    functional_id: &'x [u8],
    sender: &'x [u8],
    version: &'x [u8],
) -> Result<(), NoMemory>
    ensures { OnOk result (out.new.items ≡ out.old.items ++ group_header_text partner.now.delims at.now (record {
      functional_id = functional_id.now;
      sender = sender.now;
      receiver = partner.now.code;
      control = control;
      version = version.now;
    })) }
{
    let header = GroupHeader {
        functional_id: Lent::new(functional_id),
        sender: Lent::new(sender),
        receiver: Lent::new(partner.code.as_slice()),
        control,
        version: Lent::new(version),
    };
    append_group_header(out, &partner.delims, at, &header)
}

/// Writes a group's GS, by its first set.
fn append_header_of(
    out: &mut Vec<u8>,
    setup: &Setup,
    partner: &Partner,
    at: &At,
    control: u32,
    first: &Rendered<'_>,
) -> Result<(), NoMemory>
    ensures { OnOk result (out.new.items
        ≡ out.old.items ++ group_header_text partner.now.delims at.now (header_of setup.now partner.now control first.now.key)) }
{
    append_header_line(
        out,
        partner,
        at,
        control,
        first.functional_id(),
        code_at(setup, first.sender()),
        first.version(),
    )
}

/// Writes a group of delivered sets (X12.6, GS to GE).
pub(crate) fn append_group(
    out: &mut Vec<u8>,
    cuts: &mut Vec<Cut>,
    setup: &Setup,
    partner: &Partner,
    at: &At,
    control: u32,
    sets: &[Rendered<'_>],
) -> Result<(), NoMemory>
    requires { 0 < length sets.now }
    ensures { OnOk result (HasWoven out.old.items cuts.old.items out.new.items cuts.new.items sets.now
        (group_of setup.now partner.now at.now control sets.now)) }
{
    append_header_of(out, setup, partner, at, control, &sets[0])?;
    cuts.push(Cut {
        at: out.len(),
        sets: sets.len(),
    })?;
    append_group_trailer(out, &partner.delims, sets.len() as u64, control)
}
