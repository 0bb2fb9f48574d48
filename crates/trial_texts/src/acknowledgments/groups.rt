//! The codes and the verdict of a group.
use super::samples::{ACCEPTED_SET, SetRow, set};
use crate::texts::holds;
use ack_999::{GroupSupport, GroupTrailer, Totals, group_codes, group_verdict};
use hub_kinds::{GroupCode, GroupVerdict, Items, Lent, NoMemory, SetAnswer, Verdict};
use std::alloc::Global;
use std::test::Fail;

/// A group: whether there are guides for it, its number, its GE01 and GE02 where it has a GE, how many sets it has, whether an
/// earlier group has its number.
struct GroupCase {
    support: GroupSupport,
    control: &'static [u8],
    trailer: Option<(&'static [u8], &'static [u8])>,
    sets: u64,
    earlier: bool,
    codes: &'static [GroupCode],
}

const SOUND: GroupCase = GroupCase {
    support: GroupSupport::Served,
    control: b"12",
    trailer: Some((b"000002", b"012")),
    sets: 2,
    earlier: false,
    codes: &[],
};

const CODES: &[GroupCase] = &[
    SOUND,
    GroupCase {
        control: b"13",
        sets: 3,
        codes: &[GroupCode::ControlNumbersDiffer, GroupCode::SetCountWrong],
        ..SOUND
    },
    GroupCase {
        trailer: None,
        codes: &[GroupCode::TrailerMissing],
        ..SOUND
    },
    GroupCase {
        support: GroupSupport::NotServed,
        codes: &[GroupCode::NotSupported],
        ..SOUND
    },
    GroupCase {
        support: GroupSupport::VersionNotServed,
        trailer: None,
        earlier: true,
        codes: &[
            GroupCode::VersionNotSupported,
            GroupCode::TrailerMissing,
            GroupCode::ControlNumberNotUnique,
        ],
        ..SOUND
    },
];

/// The verdicts on two sets, and that on their group.
const VERDICTS: &[(Verdict, Verdict, GroupVerdict)] = &[
    (Verdict::Accepted, Verdict::Accepted, GroupVerdict::Accepted),
    (
        Verdict::Accepted,
        Verdict::AcceptedWithErrors,
        GroupVerdict::AcceptedWithErrors,
    ),
    (
        Verdict::AcceptedWithErrors,
        Verdict::Rejected,
        GroupVerdict::PartlyAccepted,
    ),
    (Verdict::Rejected, Verdict::Rejected, GroupVerdict::Rejected),
];

/// The codes of a group.
fn codes_of(alloc: Global, group: &GroupCase) -> Result<Items<GroupCode>, NoMemory> {
    let trailer = match group.trailer {
        None => None,
        Some((listed, control)) => Some(GroupTrailer {
            listed: Lent::new(listed),
            control: Lent::new(control),
        }),
    };
    group_codes(
        alloc,
        group.support,
        group.control,
        trailer.as_ref(),
        group.sets,
        group.earlier,
    )
}

fn expect_same(alloc: Global, found: &[GroupCode], wanted: &[GroupCode]) -> Result<(), Fail> {
    if found == wanted {
        return Ok(());
    }
    Err(Fail::new(format!(in alloc; "{found:?}")?))
}

fn expect_codes(alloc: Global, group: &GroupCase) -> Result<(), Fail> {
    let codes = codes_of(alloc, group)?;
    expect_same(alloc, codes.as_slice(), group.codes)
}

fn expect_each(alloc: Global, groups: &[GroupCase]) -> Result<(), Fail> {
    for group in groups {
        expect_codes(alloc, group)?;
    }
    Ok(())
}

#[test]
fn finds_the_codes_of_a_group(rt: HostRuntime) -> Result<(), Fail> {
    expect_each(rt.alloc(), CODES)
}

fn totals_of(first: &SetAnswer, second: &SetAnswer) -> Totals {
    let mut totals = Totals::new();
    totals.add(first);
    totals.add(second);
    totals
}

/// The totals of a set and a second one with this verdict.
fn totals_with(alloc: Global, first: &SetAnswer, verdict: Verdict) -> Result<Totals, NoMemory> {
    let row = SetRow {
        control: b"0002",
        verdict,
        ..ACCEPTED_SET
    };
    let second = set(alloc, &row)?;
    Ok(totals_of(first, &second))
}

/// The totals of two sets with these verdicts.
fn totals_of_two(alloc: Global, first: Verdict, second: Verdict) -> Result<Totals, NoMemory> {
    let row = SetRow {
        verdict: first,
        ..ACCEPTED_SET
    };
    let first = set(alloc, &row)?;
    totals_with(alloc, &first, second)
}

fn expect_verdict(alloc: Global, case: &(Verdict, Verdict, GroupVerdict)) -> Result<(), Fail> {
    let (first, second, wanted) = *case;
    let verdict = group_verdict(&[], &totals_of_two(alloc, first, second)?);
    if verdict == wanted {
        return Ok(());
    }
    Err(Fail::new(format!(in alloc; "{first:?} and {second:?}: {verdict:?}")?))
}

fn expect_verdicts(alloc: Global, cases: &[(Verdict, Verdict, GroupVerdict)]) -> Result<(), Fail> {
    for case in cases {
        expect_verdict(alloc, case)?;
    }
    Ok(())
}

#[test]
fn judges_a_group_of_two_sets(rt: HostRuntime) -> Result<(), Fail> {
    expect_verdicts(rt.alloc(), VERDICTS)
}

#[test]
fn judges_a_group_of_no_set() -> Result<(), Fail> {
    let none = Totals::new();
    let missing = [GroupCode::TrailerMissing];
    let is_accepted = group_verdict(&[], &none) == GroupVerdict::Accepted;
    let is_rejected = group_verdict(&missing, &none) == GroupVerdict::Rejected;
    holds(is_accepted && is_rejected, "another verdict")
}
