ghost use Rattle.std.specs.Prelude.{◌≡◌, ◌≤◌, ◌++◌, length, IfOk, OnOk};
ghost use Rattle.hub_kinds.specs.declared.limits.TheConstants.{LONGEST_TEXT};
ghost use Rattle.x12_write.specs.Extends.{Extends};
ghost use Rattle.x12_write.specs.Outbound.{AreHeaderEnds};
ghost use Rattle.ack_999.specs.Interchange.{group_count, group_part, ta1_part};
ghost use Rattle.set_answers.specs.Acknowledgments.{acknowledgment_text, present, reports_from, ta1_of};

use crate::acknowledgment::{Acknowledgment, has_any};
use crate::answered::AnsweredGroup;
use crate::reports::{GroupReporters, ReportedBy};
use ack_999::{Envelope, append_ack_group_header, append_ta1};
use hub_kinds::NoMemory;
use moment::At;
use x12_bytes::Delims;
use x12_write::{OutboundHeader, append_group_trailer, append_trailer};

/// Writes what an interchange is acknowledged with after what is there, as interchange `number` whose one group, if it has one, has
/// the number `control` (both 1 to 999,999,999): a TA1 where it is answered with one, and a 999 for each group that something is
/// answered to. X12.5, interchange control and TA1; 999 guide, 005010X231. Where memory is refused, a part of it may be there, after
/// what was there before.
pub(crate) fn append_acknowledgment<W: GroupReporters>(
    by: &ReportedBy<'_, W>,
    out: &mut Vec<u8>,
    header: &OutboundHeader,
    envelope: &Envelope,
    at: &At,
    number: u32,
    control: u32,
    acknowledgment: &Acknowledgment<'_, '_>,
) -> Result<(), NoMemory>
    requires ready { W.can_report by.now.writers.now }
    requires header { AreHeaderEnds envelope.now at.now header.now }
    requires few { length acknowledgment.now.groups ≤ LONGEST_TEXT }
    ensures text { OnOk result
        (out.new.items ≡ out.old.items ++ acknowledgment_text envelope.now at.now number control acknowledgment.now) }
    ensures kept { Extends out.old.items out.new.items }
{
    header.append(out, number)?;
    append_note(out, &envelope.delims, acknowledgment)?;
    let groups = append_group(by, out, envelope, at, control, acknowledgment.groups())?;
    append_trailer(out, &envelope.delims, groups, number)
}

/// Writes the TA1, where there is one.
fn append_note(
    out: &mut Vec<u8>,
    delims: &Delims,
    acknowledgment: &Acknowledgment<'_, '_>,
) -> Result<(), NoMemory>
    ensures text { OnOk result (out.new.items ≡ out.old.items ++ ta1_part (ta1_of delims.now acknowledgment.now)) }
    ensures kept { Extends out.old.items out.new.items }
{
    match acknowledgment.note() {
        None => Ok(()),
        Some(note) => append_ta1(out, delims, acknowledgment.header(), note),
    }
}

/// Writes the group of the 999s, where there are any; answers how many groups that is.
fn append_group<W: GroupReporters>(
    by: &ReportedBy<'_, W>,
    out: &mut Vec<u8>,
    envelope: &Envelope,
    at: &At,
    control: u32,
    groups: &[Option<AnsweredGroup<'_>>],
) -> Result<u64, NoMemory>
    requires ready { W.can_report by.now.writers.now }
    requires few { length groups.now ≤ LONGEST_TEXT }
    ensures text { OnOk result (out.new.items ≡ out.old.items
        ++ group_part envelope.now at.now control (reports_from envelope.now.delims 1 (present groups.now))) }
    ensures kept { Extends out.old.items out.new.items }
    ensures count { IfOk result (λ count. count ≡ group_count (reports_from envelope.now.delims 1 (present groups.now))) }
{
    if !has_any(groups) {
        return Ok(0);
    }
    append_ack_group_header(out, envelope, at, control)?;
    let reports = by
        .writers
        .append_reports(by.alloc, out, &envelope.delims, groups)?;
    append_group_trailer(out, &envelope.delims, reports, control)?;
    Ok(1)
}
