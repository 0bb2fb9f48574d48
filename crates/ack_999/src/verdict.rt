ghost use Rattle.std.specs.Prelude.{◌≡◌, List};
ghost use Rattle.hub_kinds.specs.declared.answers.SetAnswer.{SetAnswer};
ghost use Rattle.ack_999.specs.Group.{group_verdict_of, totals_of, verdicts_of, verdict_on_totals, verdict_by};

use crate::totals::Totals;
use hub_kinds::{GroupCode, GroupVerdict};

/// The verdict on a functional group with these codes, whose sets have these totals
/// (999 guide, AK901). Totals that are no sets' are judged by their numbers alone.
pub fn group_verdict(codes: &[GroupCode], totals: &Totals) -> GroupVerdict
    ensures sets { (sets : List SetAnswer) → totals.now ≡ totals_of sets
        → result ≡ group_verdict_of codes.now (verdicts_of sets) }
    ensures totals { result ≡ verdict_by codes.now totals.now }
{
    verdict_by(codes, totals)
}

/// R with any code, else the verdict on the sets.
fn verdict_by(codes: &[GroupCode], totals: &Totals) -> GroupVerdict
    ensures { result ≡ verdict_by codes.now totals.now }
{
    if codes.is_empty() {
        verdict_on(totals)
    } else {
        GroupVerdict::Rejected
    }
}

/// The verdict on the sets of a group without codes.
fn verdict_on(totals: &Totals) -> GroupVerdict
    ensures { result ≡ verdict_on_totals totals.now }
{
    if totals.accepted_with_errors == 0 && totals.rejected == 0 {
        GroupVerdict::Accepted
    } else if totals.rejected == 0 {
        GroupVerdict::AcceptedWithErrors
    } else if totals.accepted == 0 && totals.accepted_with_errors == 0 {
        GroupVerdict::Rejected
    } else {
        GroupVerdict::PartlyAccepted
    }
}
