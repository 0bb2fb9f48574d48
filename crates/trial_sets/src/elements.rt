//! Sets with elements in error.
use super::guides::{NOTICE, ORDER, guide_of};
use super::sets::{Cases, expect, expect_told};
use guide_tree::Guide;
use std::alloc::{AllocError, Global};
use std::test::Fail;

/// Sets of an order, and what is found in each.
const ORDERS: Cases = &[
    // a code that isn't used, a day and a time that don't exist, a condition; no number may have a sign in its length
    [
        "ST*850*0001~BEG*01*SA*P1**20260229~REF*DP*7~DTM*002**2460~PO1*1*-0012.5*EA***UP~SE*6*0001~",
        "2 BEG() 8 1 1.0.0 I6 353 01;2 BEG() 8 1 5.0.0 8 373 20260229;4 DTM() 8 3 3.0.0 9 337 2460;5 PO1(PO1) 8 8 7.0.0 2 234 ; 5 I5\n",
    ],
    // one element in error in a set that is well-formed
    [
        "ST*850*0001~BEG*00*SA*P1**20260228~PO1*1*5*XX~SE*4*0001~",
        "3 PO1(PO1) 8 8 3.0.0 7 355 XX; 5\n",
    ],
    [
        "ST*850*0001~BEG*00*SA*P1**20260228~PO1*1*5*DZ~SE*4*0001~",
        "3 PO1(PO1) 8 8 3.0.0 I6 355 DZ; I5\n",
    ],
    // a use past the maximum is checked too, a stray isn't
    [
        "ST*850*0001~BEG*00*SA*P1**20260228~BEG*00*SA*P1~PER*1~PO1*1*5*EA~REF~SE*7*0001~",
        "3 BEG() 5 1;3 BEG() 8 1 5.0.0 1 373 ;4 PER() 6 0;6 REF() 7 0; 5\n",
    ],
    // more elements than rows, and one that isn't used
    [
        "ST*850*0001~BEG*00*SA*P1**20260228~PO1*1*5*EA~PID*F**X~CTT*1*2~SE*6*0001~",
        "4 PID(PO1) 8 9 3.0.0 I10 559 X;5 CTT() 8 10 2.0.0 3  2; 5 I5\n",
    ],
];

#[test]
fn orders(rt: HostRuntime) -> Result<(), Fail> {
    expect(rt.alloc(), ORDER, ORDERS)
}

/// A notice whose N4 has a composite, which may be repeated once, and what is found in it.
const PLACES: Cases = &[
    ["NY>AB^X", " clean\n"],
    [
        "NY>A>C^>AB^Z",
        "7 N4(N1) 8 8 1.0.3 12 19 Z;7 N4(N1) 8 8 1.1.2 1 20 ;7 N4(N1) 8 8 1.3.1 13 19 C; 5\n",
    ],
];

/// A notice with this place.
fn notice(alloc: Global, place: &str) -> Result<String, AllocError> {
    format!(in alloc; "ST*856*0001~BSN*00~HL*1~REF*IA*X~REF*IA*Y~N1*ST~N4*{place}~SE*8*0001~")
}

fn expect_place(alloc: Global, guide: &Guide, case: &[&str; 2]) -> Result<(), Fail> {
    let [place, wanted] = *case;
    let set = notice(alloc, place)?;
    expect_told(alloc, Some(guide), set.as_str(), wanted)
}

/// Whether just this is found in a notice with each of these places.
fn expect_places(alloc: Global, guide: &Guide, cases: Cases) -> Result<(), Fail> {
    for case in cases {
        expect_place(alloc, guide, case)?;
    }
    Ok(())
}

#[test]
fn components(rt: HostRuntime) -> Result<(), Fail> {
    let guide = guide_of(rt.alloc(), NOTICE)?;
    expect_places(rt.alloc(), &guide, PLACES)
}
