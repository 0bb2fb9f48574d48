ghost use Rattle.std.specs.Prelude.{◌≡◌, ◌<◌, ◌≤◌, ◌∷◌, [], ℕ, Some, length, slice_get, slice_set, OnOk};
ghost use Rattle.hub_kinds.specs.declared.limits.TheConstants.{LONGEST_TEXT};
ghost use Rattle.partner_setup.specs.declared.partner.Partner.{Partner};
ghost use Rattle.set_answers.specs.CheckedText.{CheckedInterchange, SentValues, acknowledgment_of};
ghost use Rattle.set_answers.specs.CheckedText.{recipient_by, with_next};
ghost use Rattle.set_answers.specs.Headers.{AreHeadersTo};
ghost use Rattle.set_answers.specs.SentAfter.{AreSentAfter, CanCount};

use crate::acknowledgment::Acknowledgment;
use crate::files::Acknowledgments;
use crate::headers::{prepare, prepared};
use crate::reports::{GroupReporters, ReportedBy};
use hub_kinds::NoMemory;
use moment::At;
use partner_setup::Setup;
use x12_write::OutboundHeader;

/// Adds what an interchange is acknowledged with to its sender's acknowledgments, where there is something.
pub(crate) fn acknowledge<W: GroupReporters>(
    by: &ReportedBy<'_, W>,
    files: &mut [Acknowledgments],
    headers: &mut [Option<OutboundHeader>],
    setup: &Setup,
    at: &At,
    sender: Option<usize>,
    acknowledgment: &Acknowledgment<'_, '_>,
) -> Result<(), NoMemory>
    requires ready { W.can_report by.now.writers.now }
    requires within { (s : ℕ) → sender ≡ Some s → s < length setup.now.partners }
    requires count { length files.old ≡ length setup.now.partners }
    requires few { length acknowledgment.now.groups ≤ LONGEST_TEXT }
    requires room { CanCount 1 files.old }
    requires headers { AreHeadersTo setup.now at.now headers.old }
    ensures sent { OnOk result ((x : CheckedInterchange) → x.sender ≡ sender → acknowledgment_of x ≡ acknowledgment.now
        → AreSentAfter setup.now at.now (x ∷ []) files.old files.new) }
    ensures headers { OnOk result (AreHeadersTo setup.now at.now headers.new) }
{
    match recipient_by(sender, acknowledgment) {
        None => Ok(()),
        Some(place) => add_to(by, files, headers, setup, at, place, acknowledgment),
    }
}

/// Adds it to those of the partner at a place.
fn add_to<W: GroupReporters>(
    by: &ReportedBy<'_, W>,
    files: &mut [Acknowledgments],
    headers: &mut [Option<OutboundHeader>],
    setup: &Setup,
    at: &At,
    place: usize,
    acknowledgment: &Acknowledgment<'_, '_>,
) -> Result<(), NoMemory>
    requires ready { W.can_report by.now.writers.now }
    requires within { place < length setup.now.partners }
    requires count { length files.old ≡ length setup.now.partners }
    requires few { length acknowledgment.now.groups ≤ LONGEST_TEXT }
    requires room { CanCount 1 files.old }
    requires headers { AreHeadersTo setup.now at.now headers.old }
    ensures sent { OnOk result ((p : Partner) (f : SentValues) → slice_get setup.now.partners place ≡ Some p
        → slice_get files.old place ≡ Some f
        → files.new ≡ slice_set files.old place (with_next setup.now p at.now f acknowledgment.now)) }
    ensures headers { OnOk result (AreHeadersTo setup.now at.now headers.new) }
{
    prepare(by.alloc, headers, setup, at, place)?;
    let header = prepared(headers, place);
    files[place].add(by, header, setup, place, at, acknowledgment)
}

/// To whom an interchange of this sender is acknowledged.
fn recipient_by(sender: Option<usize>, acknowledgment: &Acknowledgment<'_, '_>) -> Option<usize>
    ensures { result ≡ recipient_by sender acknowledgment.now }
{
    if acknowledgment.is_there() {
        sender
    } else {
        None
    }
}
