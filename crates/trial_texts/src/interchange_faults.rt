//! The faults of interchanges: the least is reported.
use crate::interchanges::{HEADER, LETTER_IN_CONTROL, joined, read};
use env_index::judge_interchange;
use hub_kinds::InterchangeFault;
use std::alloc::Global;
use std::test::Fail;

/// A header, the segments after it, and the least fault.
type Case = (&'static [u8], &'static [u8], Option<InterchangeFault>);

const CASES: &[Case] = &[
    (
        HEADER,
        b"GS*PO*A*B*20260228*0900*12*X*005010~GE*0*12~IEA*0001*7~",
        None,
    ),
    (
        LETTER_IN_CONTROL,
        b"IEA*0*000000007",
        Some(InterchangeFault::TrailerMissing),
    ),
    (
        LETTER_IN_CONTROL,
        b"IEA*1*000000008~",
        Some(InterchangeFault::ControlNumberInvalid),
    ),
    (
        HEADER,
        b"IEA*1*000000008~",
        Some(InterchangeFault::ControlNumbersDiffer),
    ),
    (
        HEADER,
        b"IEA*0*0000000007~",
        Some(InterchangeFault::ControlNumbersDiffer),
    ),
    (
        HEADER,
        b"REF*DP*7~IEA*1*000000007~",
        Some(InterchangeFault::GroupCountWrong),
    ),
    (
        HEADER,
        b"GS*PO~REF*DP*7~GE*0~IEA*1*000000007~",
        Some(InterchangeFault::SegmentMisplaced),
    ),
    (
        HEADER,
        b"GE*1*12~IEA*0*000000007~",
        Some(InterchangeFault::SegmentMisplaced),
    ),
    (
        HEADER,
        b"GS*Po*A*B*20260228*0900*12*X*005010~ST*85*0001~IEA*1*000000007~",
        Some(InterchangeFault::GroupHeaderInvalid),
    ),
    (
        HEADER,
        b"GS*PO*A*B*20260228*0900*12*X*0050100050100~IEA*1*000000007~",
        Some(InterchangeFault::GroupHeaderInvalid),
    ),
    (
        HEADER,
        b"GS*PO*A*B*20260228*0900*12*X*005010~ST*85*0001~IEA*1*000000007~",
        Some(InterchangeFault::SetHeaderInvalid),
    ),
    (
        HEADER,
        b"GS*PO*A*B*20260228*0900*12*X*005010~ST*850*ABCDEFGHIJ~IEA*1*000000007~",
        Some(InterchangeFault::SetHeaderInvalid),
    ),
];

/// The least fault of the interchange that has these segments after its header.
fn fault(alloc: Global, header: &[u8], segments: &[u8]) -> Result<Option<InterchangeFault>, Fail> {
    let text = joined(alloc, header, segments)?;
    let found = read(alloc, &text, 0)?;
    Ok(judge_interchange(&found))
}

fn expect_fault(alloc: Global, case: &Case) -> Result<(), Fail> {
    let (header, segments, wanted) = *case;
    let found = fault(alloc, header, segments)?;
    if found == wanted {
        return Ok(());
    }
    Err(Fail::new(format!(in alloc; "{found:?}")?))
}

fn expect_each(alloc: Global, cases: &[Case]) -> Result<(), Fail> {
    for case in cases {
        expect_fault(alloc, case)?;
    }
    Ok(())
}

#[test]
fn finds_the_least_fault(rt: HostRuntime) -> Result<(), Fail> {
    expect_each(rt.alloc(), CASES)
}
