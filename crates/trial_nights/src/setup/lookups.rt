//! What is looked up in the setup of the two partners.
use super::built::{built_of, example};
use super::examples::{ACME, BOLT, COUNTERS, FROM_ACME, FROM_BOLT, FROM_NOBODY};
use guide_tree::Guide;
use partner_setup::Setup;
use std::test::Fail;
use x12_bytes::read_header;

/// Headers, and the places of their senders.
const SENDERS: &[(&[u8], Option<usize>)] = &[
    (FROM_ACME, Some(0)),
    (FROM_BOLT, Some(1)),
    (FROM_NOBODY, None),
];

fn expect_sender(setup: &Setup, text: &[u8], wanted: Option<usize>) -> Result<(), Fail> {
    let header = read_header(text, 0).ok_or("no header")?;
    if setup.sender_of(&header) == wanted {
        return Ok(());
    }
    Err("another sender")?
}

fn expect_senders(setup: &Setup, cases: &[(&[u8], Option<usize>)]) -> Result<(), Fail> {
    for (text, wanted) in cases {
        expect_sender(setup, text, *wanted)?;
    }
    Ok(())
}

#[test]
fn senders(rt: HostRuntime) -> Result<(), Fail> {
    expect_senders(&example(rt.alloc())?, SENDERS)
}

/// Codes, and the places of their receivers.
const RECEIVERS: &[(&[u8], &[usize])] = &[
    (b"ACME", &[0]),
    (b"BOLT", &[1]),
    (b"CARL", &[]),
    (b"BOLT ", &[]),
];

fn expect_receivers(setup: &Setup, cases: &[(&[u8], &[usize])]) -> Result<(), Fail> {
    for (code, wanted) in cases {
        if setup.route_of(code) != *wanted {
            return Err("other receivers")?;
        }
    }
    Ok(())
}

#[test]
fn receivers(rt: HostRuntime) -> Result<(), Fail> {
    expect_receivers(&example(rt.alloc())?, RECEIVERS)
}

/// Both partners as receivers of what is sent to BOLT, the second first.
const TO_BOTH: &str =
    "[[route]]\ncode=\"BOLT\"\nto=[\"BOLT\",\"ACME\"]\n[[route]]\ncode=\"ACME\"\nto=\"BOLT\"\n";

/// Codes, and the places of their receivers, in the order of the route.
const IN_ORDER: &[(&[u8], &[usize])] = &[(b"BOLT", &[1, 0]), (b"ACME", &[1]), (b"CARL", &[])];

#[test]
fn receivers_in_their_order(rt: HostRuntime) -> Result<(), Fail> {
    let setup = built_of(rt.alloc(), ACME, BOLT, TO_BOTH, COUNTERS)?;
    expect_receivers(&setup, IN_ORDER)
}

/// A partner, GS01 and GS08, and whether it has a guide for the one and for both.
const GROUPS: &[(usize, &[u8], &[u8], bool, bool)] = &[
    (0, b"SH", b"005010", true, true),
    (0, b"SH", b"004010", true, false),
    (1, b"SH", b"005010", false, false),
    (1, b"PO", b"005010", true, true),
    (2, b"PO", b"005010", false, false),
];

fn expect_group(setup: &Setup, case: &(usize, &[u8], &[u8], bool, bool)) -> Result<(), Fail> {
    let (partner, group, version, has_group, has_version) = *case;
    if setup.has_group(partner, group) != has_group {
        return Err("another answer for a group")?;
    }
    if setup.has_version(partner, group, version) != has_version {
        return Err("another answer for a version")?;
    }
    Ok(())
}

fn expect_groups(setup: &Setup, cases: &[(usize, &[u8], &[u8], bool, bool)]) -> Result<(), Fail> {
    for case in cases {
        expect_group(setup, case)?;
    }
    Ok(())
}

#[test]
fn groups_and_versions(rt: HostRuntime) -> Result<(), Fail> {
    expect_groups(&example(rt.alloc())?, GROUPS)
}

/// A partner, GS01, GS08 and ST01, and the name of its guide; none is empty.
const SETS: &[(usize, &[u8], &[u8], &[u8], &[u8])] = &[
    (0, b"PO", b"005010", b"850", b"H850"),
    (0, b"SH", b"005010", b"856", b"H856"),
    (1, b"PO", b"005010", b"850", b"H850"),
    (1, b"SH", b"005010", b"856", b""),
    (0, b"PO", b"004010", b"850", b""),
    (0, b"PO", b"005010", b"856", b""),
];

fn name_of(guide: Option<&Guide>) -> &[u8] {
    match guide {
        None => &[],
        Some(guide) => guide.rows().head.name.as_slice(),
    }
}

fn expect_guide(setup: &Setup, case: &(usize, &[u8], &[u8], &[u8], &[u8])) -> Result<(), Fail> {
    let (partner, group, version, set, wanted) = *case;
    if name_of(setup.guide_of(partner, group, version, set)) == wanted {
        return Ok(());
    }
    Err("another guide")?
}

fn expect_guides(setup: &Setup, cases: &[(usize, &[u8], &[u8], &[u8], &[u8])]) -> Result<(), Fail> {
    for case in cases {
        expect_guide(setup, case)?;
    }
    Ok(())
}

#[test]
fn guides_of_sets(rt: HostRuntime) -> Result<(), Fail> {
    expect_guides(&example(rt.alloc())?, SETS)
}
