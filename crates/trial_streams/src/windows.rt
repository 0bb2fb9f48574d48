//! Texts read window by window: what is worked on is dropped, and the open interchange is followed from where it was left.
ghost use Rattle.std.specs.Prelude.{◌<◌};

use crate::sources::Memory;
use crate::texts::{ORDER, TWO_ORDERS, WITHOUT_TRAILER};
use std::alloc::Global;
use std::test::Fail;
use stream_read::Held;
use whole_interchanges::{Scout, advance, forget};

/// Where those batches end in which an interchange is whole, where a text is read in windows of this many bytes.
fn ends(alloc: Global, text: &[u8], window: usize) -> Result<Vec<usize>, Fail>
    requires { 0 < window }
{
    let mut source = Memory::new(text);
    let mut held = Held::new(alloc);
    let mut scout = Scout {
        at: 0,
        inside: None,
    };
    let mut ends = Vec::new(alloc);
    let mut base = 0usize;
    for _ in 0..=text.len() {
        let is_full = held.fill(&mut source, window)?;
        let ahead = advance(held.bytes(), scout);
        base = base.saturating_add(ahead.scout.at);
        if ahead.count > 0 {
            ends.push(base)?;
        }
        held.give_up(ahead.scout.at);
        scout = forget(ahead.scout);
        if !is_full {
            break;
        }
    }
    Ok(ends)
}

/// Text outside of interchanges, before an order and after it.
const BETWEEN: &[u8] = b"HI ISA\r\n\
      ISA*00*          *00*          *01*ACME           *ZZ*HUB            *260228*0900*^*00501*000000007*0*P*>~\
      GS*PO*ACME*BOLT*20260228*0900*12*X*005010~ST*850*0001~BEG*00*SA*PO100**20260228~PO1*1*5*EA*2.50~SE*4*0001~\
      GE*1*12~IEA*1*000000007~\r\nBYE";

/// A text, windows from this many up to this many bytes, and where those batches end in which an interchange is whole.
type Case = (&'static [u8], usize, usize, &'static [usize]);

const CASES: &[Case] = &[
    (ORDER, 1, 240, &[236]),
    (TWO_ORDERS, 1, 236, &[236, 472]),
    (TWO_ORDERS, 472, 480, &[472]),
    (WITHOUT_TRAILER, 1, 106, &[220, 456]),
    (WITHOUT_TRAILER, 326, 455, &[220, 456]),
    (WITHOUT_TRAILER, 456, 460, &[456]),
    (BETWEEN, 1, 1, &[244]),
    (BETWEEN, 244, 244, &[244]),
    (BETWEEN, 4_096, 4_096, &[249]),
];

fn expect(alloc: Global, case: &Case) -> Result<(), Fail> {
    let (text, from, to, wanted) = *case;
    for window in from..=to {
        if window > 0 {
            let found = ends(alloc, text, window)?;
            if found.as_slice() != wanted {
                return Err(Fail::new(format!(in alloc;
                    "{} bytes, {window}: {found:?}",
                    text.len()
                )?));
            }
        }
    }
    Ok(())
}

#[test]
fn batches_end_where_interchanges_do(rt: HostRuntime) -> Result<(), Fail> {
    for case in CASES {
        expect(rt.alloc(), case)?;
    }
    Ok(())
}
