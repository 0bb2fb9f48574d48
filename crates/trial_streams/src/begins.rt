//! Beginnings of a header.
use crate::texts::{ORDER, TWO_ORDERS};
use std::alloc::Global;
use std::test::Fail;
use whole_interchanges::may_begin;

/// What a text begins with, and whether a header may.
const CASES: &[(&[u8], bool)] = &[
    (b"", true),
    (b"I", true),
    (b"IS", true),
    (b"ISA", true),
    (b"ISA*", true),
    (b"ISA>00>", true),
    (b"ISA*00*   ", true),
    (b"GS*PO", false),
    (b"IEA*1", false),
    (b"IS*", false),
    (b"isa", false),
    (b"ISAI", false),
    (b"ISA0", false),
    (b"ISA ", false),
    (b"ISA\n", false),
    (b"ISA*0*", false),
    (b"ISA*000", false),
    (b"ISA*00>", false),
    (b"ISA*00*   *", false),
    (b"ISA*00*          *00*          *01*ACME*", false),
    (
        b"ISA*00*          *00*          *01*ACME           *ZZ*HUB            *260228*0900*^*00501*000000007*0*P*:",
        true,
    ),
    (
        b"ISA*00*          *00*          *01*ACME           *ZZ*HUB            *260228*0900*^*00501*000000007*0*P**",
        false,
    ),
    (
        b"ISA*00*          *00*          *01*ACME           *ZZ*HUB            *260228*0900*^*00501*000000007*0*P*A",
        false,
    ),
];

fn expect(alloc: Global, read: &[u8], at: usize, wanted: bool) -> Result<(), Fail> {
    if at <= read.len() && may_begin(read, at) == wanted {
        return Ok(());
    }
    let text = String::from_utf8_lossy(alloc, read)?;
    Err(Fail::new(format!(in alloc; "{text}, {at}: not {wanted}")?))
}

#[test]
fn a_header_may_begin_with_what_is_read(rt: HostRuntime) -> Result<(), Fail> {
    for (read, wanted) in CASES {
        expect(rt.alloc(), read, 0, *wanted)?;
    }
    Ok(())
}

/// Up to 105 bytes of a header may be one; 106 are one, so that it begins already.
#[test]
fn a_header_cut_anywhere(rt: HostRuntime) -> Result<(), Fail> {
    for n in 0..=ORDER.len() {
        expect(rt.alloc(), &ORDER[..n], 0, n < 106)?;
    }
    for n in 236..=TWO_ORDERS.len() {
        expect(rt.alloc(), &TWO_ORDERS[..n], 236, n < 342)?;
    }
    Ok(())
}
