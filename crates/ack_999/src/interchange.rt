ghost use Rattle.std.specs.Prelude.{◌≡◌, ◌++◌, option_map, IfOk, OnOk};
ghost use Rattle.x12_write.specs.Extends.{Extends};
ghost use Rattle.x12_write.specs.Group.{group_header_text};
ghost use Rattle.x12_write.specs.Sendable.{BeginsWithHeader};
ghost use Rattle.ack_999.specs.Interchange.{HasContent, acknowledging_group, group_count, group_part, interchange_text, ta1_part};

use hub_kinds::{Lent, NoMemory, Text};
use moment::At;
use std::alloc::Global;
use x12_write::{
    Envelope, GroupHeader, append_group, append_group_header, append_header, append_trailer,
};

/// An interchange from the hub to a partner, as number `number` (1 to 999,999,999), with a TA1 (X12.5) if there is one, and one
/// functional group of number `control` that holds these acknowledgments (999 guide, 005010X231) if there are any; not both are absent.
pub fn write_ack_interchange(
    alloc: Global,
    envelope: &Envelope,
    at: &At,
    number: u32,
    control: u32,
    ta1: Option<&[u8]>,
    reports: &[Text],
) -> Result<Vec<u8>, NoMemory>
    requires { HasContent (option_map (λ t. t.now) ta1) reports.now }
    ensures text { IfOk result
        (λ v. v.items ≡ interchange_text envelope.now at.now number control (option_map (λ t. t.now) ta1.entry) reports.now) }
    ensures header { IfOk result (λ v. BeginsWithHeader envelope.now at.now number v.items 0) }
{
    let mut out = Vec::new(alloc);
    append_header(&mut out, envelope, at, number)?;
    append_ta1_part(&mut out, ta1)?;
    append_group_part(&mut out, envelope, at, control, reports)?;
    append_trailer(&mut out, &envelope.delims, group_count(reports), number)?;
    Ok(out)
}

/// Writes a TA1 after what is there, where there is one.
fn append_ta1_part(out: &mut Vec<u8>, ta1: Option<&[u8]>) -> Result<(), NoMemory>
    ensures text { OnOk result (out.new.items ≡ out.old.items ++ ta1_part (option_map (λ t. t.now) ta1.entry)) }
    ensures kept { Extends out.old.items out.new.items }
{
    if let Some(ta1) = ta1 {
        out.extend_from_slice(ta1)?;
    }
    Ok(())
}

/// Writes the group of these acknowledgments after what is there, where there are any.
fn append_group_part(
    out: &mut Vec<u8>,
    envelope: &Envelope,
    at: &At,
    control: u32,
    reports: &[Text],
) -> Result<(), NoMemory>
    ensures text { OnOk result (out.new.items ≡ out.old.items ++ group_part envelope.now at.now control reports.now) }
    ensures kept { Extends out.old.items out.new.items }
{
    if reports.is_empty() {
        return Ok(());
    }
    let header = acknowledging_group(envelope, control);
    append_group(out, &envelope.delims, at, &header, reports)
}

/// How many groups these acknowledgments are in.
fn group_count(reports: &[Text]) -> u64
    ensures { result ≡ group_count reports.now }
{
    if reports.is_empty() { 0 } else { 1 }
}

/// Writes GS of the group of number `control` (1 to 999,999,999) that acknowledgments are in, after what is there.
pub fn append_ack_group_header(
    out: &mut Vec<u8>,
    envelope: &Envelope,
    at: &At,
    control: u32,
) -> Result<(), NoMemory>
    ensures text { OnOk result (out.new.items
        ≡ out.old.items ++ group_header_text envelope.now.delims at.now (acknowledging_group envelope.now control)) }
    ensures kept { Extends out.old.items out.new.items }
{
    let header = acknowledging_group(envelope, control);
    append_group_header(out, &envelope.delims, at, &header)
}

/// The header of the group that acknowledgments are in.
fn acknowledging_group<'a>(envelope: &'a Envelope<'a>, control: u32) -> GroupHeader<'a>
    ensures { result ≡ acknowledging_group envelope.now control }
{
    GroupHeader {
        functional_id: Lent::new(b"FA"),
        sender: Lent::new(envelope.hub_code.bytes()),
        receiver: Lent::new(envelope.partner_code.bytes()),
        control,
        version: Lent::new(b"005010X231"),
    }
}
