ghost use Rattle.std.specs.Prelude.{◌≡◌, ◌<◌, ◌^◌};
ghost use Rattle.ack_999.specs.Group.{totals_of, set_segment_count, IsCountable};
ghost use Rattle.ack_999.specs.Report.{segment_count, shows_sets, hides_sets, listed_sets, accepted_sets};

use crate::totals::Totals;
use hub_kinds::{GroupAnswer, GroupCode, MOST_COUNT_DIGITS, SetAnswer, read_number};

/// AK902: how many sets the group's trailer lists.
pub(crate) fn listed_sets(group: &GroupAnswer, totals: &Totals) -> u128
    ensures { result ≡ listed_sets group.now.listed totals.now }
{
    match read_number(group.listed.bytes(), MOST_COUNT_DIGITS) {
        Some(listed) => u128::from(listed),
        None => totals.sets(),
    }
}

/// AK904: how many sets are accepted.
pub fn accepted_sets(group: &GroupAnswer, totals: &Totals) -> u128
    ensures { result ≡ accepted_sets group.now.codes totals.now }
{
    if group.codes.as_slice().is_empty() {
        u128::from(totals.accepted) + u128::from(totals.accepted_with_errors)
    } else {
        0
    }
}

/// SE01: how many segments there are from ST to SE.
pub(crate) fn segment_count(group: &GroupAnswer, totals: &Totals) -> u128
    requires { IsCountable totals.now }
    ensures { result ≡ segment_count group.now totals.now }
{
    if shows_sets(group.codes.as_slice()) {
        set_segment_count(totals) + 4
    } else {
        4
    }
}

/// How many segments there are from the first AK2 to the last IK5, where the sets are shown.
fn set_segment_count(totals: &Totals) -> u128
    requires { IsCountable totals.now }
    ensures { result ≡ set_segment_count totals.now }
{
    2 * totals.sets() + totals.fault_segments
}

/// Whether the sets of a group with these codes are shown.
pub(crate) fn shows_sets(codes: &[GroupCode]) -> bool
    ensures { result ≡ shows_sets codes.now }
{
    !codes.iter().any(|code| hides_sets(*code))
}

fn hides_sets(code: GroupCode) -> bool
    ensures { result ≡ hides_sets code }
{
    match code {
        GroupCode::NotSupported => true,
        GroupCode::VersionNotSupported => true,
        GroupCode::TrailerMissing
        | GroupCode::ControlNumbersDiffer
        | GroupCode::SetCountWrong
        | GroupCode::ControlNumberNotUnique => false,
    }
}

/// How many sets have each verdict, and how many segments report their faults.
pub fn totals_of(sets: &[SetAnswer]) -> Totals
    ensures value { result ≡ totals_of sets.now }
    ensures countable { IsCountable result }
{
    let mut totals = Totals::new();
    for set in sets {
        totals.add(set);
    }
    totals
}
