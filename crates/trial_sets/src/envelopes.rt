//! Sets whose header and trailer are in error, and sets without a guide.
use super::guides::{NOTICE, ORDER, guide_of};
use super::sets::{Cases, expect, expect_each, expect_told};
use guide_tree::Guide;
use std::alloc::{AllocError, Global};
use std::test::Fail;

/// What comes before a clean body and after it, and what is found.
const ORDERS: &[[&str; 3]] = &[
    ["ST*850*0001", "SE*4*0001~", " clean\n"],
    // SE01 is a number: zeros before it don't count, and it has 10 digits at most
    ["ST*850*0001", "SE*0000000004*0001~", " clean\n"],
    ["ST*850*0001", "SE*00000000004*0001~", " 4\n"],
    // it counts ST and SE
    ["ST*850*0001", "SE*2*0001~", " 4\n"],
    ["ST*850*0001", "SE*3*0001~", " 4\n"],
    ["ST*850*0001", "SE**0001~", " 4\n"],
    ["ST*850*0001", "SE*4*0002~", " 3\n"],
    ["ST*850*0001", "SE*4*1~", " 3\n"],
    ["ST*850*0001", "SE~", " 3 4\n"],
    ["ST*850*001", "SE*5*0002~", " 3 4 7\n"],
    ["ST*850*001", "SE*4*001~", " 7\n"],
    ["ST*850", "SE*4~", " 7\n"],
    ["ST*850*0001", "", " 2\n"],
    ["ST*850*001", "", " 2 7\n"],
    // a guide without a convention asks for none
    ["ST*850*0001*OTHER", "SE*4*0001~", " clean\n"],
    // further elements aren't looked at
    ["ST*850*0001**X", "SE*4*0001*X~", " clean\n"],
];

/// An order between these.
fn order(alloc: Global, header: &str, trailer: &str) -> Result<String, AllocError> {
    format!(in alloc; "{header}~BEG*00*SA*P1**20260228~PO1*1*5*EA~{trailer}")
}

fn expect_order(alloc: Global, guide: &Guide, case: &[&str; 3]) -> Result<(), Fail> {
    let [header, trailer, wanted] = *case;
    let set = order(alloc, header, trailer)?;
    expect_told(alloc, Some(guide), set.as_str(), wanted)
}

/// Whether just this is found in an order between each of these.
fn expect_orders(alloc: Global, guide: &Guide, cases: &[[&str; 3]]) -> Result<(), Fail> {
    for case in cases {
        expect_order(alloc, guide, case)?;
    }
    Ok(())
}

#[test]
fn envelopes(rt: HostRuntime) -> Result<(), Fail> {
    let guide = guide_of(rt.alloc(), ORDER)?;
    expect_orders(rt.alloc(), &guide, ORDERS)
}

/// ST03 of a notice under a convention, and what is found.
const CONVENTIONS: Cases = &[
    ["", " clean\n"],
    ["*", " clean\n"],
    ["*HUB1", " clean\n"],
    // separators alone are empty, and after other bytes they are bytes as any
    ["*>", " clean\n"],
    ["*^", " clean\n"],
    ["*^>>", " clean\n"],
    ["*HUB1>", " I6\n"],
    ["*HUB2", " I6\n"],
    ["*HUB", " I6\n"],
];

/// A notice with this.
fn notice(alloc: Global, convention: &str) -> Result<String, AllocError> {
    format!(in alloc; "ST*856*0001{convention}~BSN*00~HL*1~REF*IA*X~REF*IA*Y~SE*6*0001~")
}

fn expect_notice(alloc: Global, guide: &Guide, case: &[&str; 2]) -> Result<(), Fail> {
    let [convention, wanted] = *case;
    let set = notice(alloc, convention)?;
    expect_told(alloc, Some(guide), set.as_str(), wanted)
}

/// Whether just this is found in a notice with each of these.
fn expect_notices(alloc: Global, guide: &Guide, cases: Cases) -> Result<(), Fail> {
    for case in cases {
        expect_notice(alloc, guide, case)?;
    }
    Ok(())
}

#[test]
fn conventions(rt: HostRuntime) -> Result<(), Fail> {
    let guide = guide_of(rt.alloc(), NOTICE)?;
    expect_notices(rt.alloc(), &guide, CONVENTIONS)
}

/// Sets of one group, one after the other, and what is found in each.
const GROUPS: Cases = &[
    // an open set ends before the next one; whether a number was seen before isn't asked
    [
        "ST*850*0001~BEG*00*SA*P1**20260228~PO1*1*5*EA~ST*850*0001~BEG*00*SA*P1**20260228~PO1*1*5*EA~SE*4*0001~",
        " 2\n clean\n",
    ],
    [
        "ST*850*0001~ST*850*0002~SE*2*0002~",
        "2 BEG() 3 1;2 PO1(PO1) 3 7; 5 2\n2 BEG() 3 1;2 PO1(PO1) 3 7; 5\n",
    ],
    ["", ""],
];

#[test]
fn groups(rt: HostRuntime) -> Result<(), Fail> {
    expect(rt.alloc(), ORDER, GROUPS)
}

/// Sets without a guide, and what is found: no segment is looked at.
const ALONE: Cases = &[
    [
        "ST*860*0001~BEG*00*SA*P1**20260228~PO1*1*5*EA~SE*4*0001~",
        " 1\n",
    ],
    ["ST*860*0001~QQ~SE*3*0001~", " 1\n"],
    ["ST*860*001*HUB2~QQ~", " 1 2 7\n"],
    ["ST*860*001~QQ~SE*9*0001~", " 1 3 4 7\n"],
];

#[test]
fn sets_without_a_guide(rt: HostRuntime) -> Result<(), Fail> {
    expect_each(rt.alloc(), None, ALONE)
}
