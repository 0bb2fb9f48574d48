//! From which byte on an interchange is whole.
use crate::texts::{ORDER, Seen, TWO_ORDERS, WITHOUT_TRAILER, seen};
use std::alloc::Global;
use std::test::Fail;

/// Its segments are on lines, and a line end is after it.
const LINES: &[u8] =
    b"ISA*00*          *00*          *01*ACME           *ZZ*HUB            *260228*0900*^*00501*000000007*0*P*>~\
      \r\nIEA*0*000000007~\r\n";

/// After its header is what is a header too, once `!` is read, by the element separator `~`; an IEA is in its field 4.
const TRAILER_IN_A_HEADER: &[u8] =
    b"ISA*00*          *00*          *01*ACME           *ZZ*HUB            *260228*0900*^*00501*000000007*0*P*>~\
      ISA~00~          ~00~IEA*1*0007~01~ACME           ~01~HUB            ~260228~0900~^~00501~000000007~0~P~>!GS";

/// The terminator after the IEA falls into field 4, so that this isn't a header.
const TRAILER_IN_NO_HEADER: &[u8] =
    b"ISA*00*          *00*          *01*ACME           *ZZ*HUB            *260228*0900*^*00501*000000007*0*P*>~\
      ISA~00~          ~00~IEA*1*07~";

/// A text, and what is seen of its first bytes, of this many up to this many of them.
type Case = (&'static [u8], &'static [(usize, usize, Seen)]);

const CASES: &[Case] = &[
    (
        ORDER,
        &[
            (0, 105, (0, false, false)),
            (106, 235, (0, false, true)),
            (236, 236, (236, true, false)),
        ],
    ),
    (
        TWO_ORDERS,
        &[
            (0, 105, (0, false, false)),
            (106, 235, (0, false, true)),
            (236, 341, (236, true, false)),
            (342, 471, (236, true, true)),
            (472, 472, (472, true, false)),
        ],
    ),
    (
        WITHOUT_TRAILER,
        &[
            (106, 325, (0, false, true)),
            (326, 455, (220, true, true)),
            (456, 456, (456, true, false)),
        ],
    ),
    (
        LINES,
        &[
            (106, 123, (0, false, true)),
            (124, 124, (124, true, false)),
            (126, 126, (126, true, false)),
        ],
    ),
    (
        TRAILER_IN_A_HEADER,
        &[(106, 211, (0, false, true)), (212, 214, (106, true, true))],
    ),
    (
        TRAILER_IN_NO_HEADER,
        &[(106, 135, (0, false, true)), (136, 136, (136, true, false))],
    ),
];

fn expect(alloc: Global, case: &Case) -> Result<(), Fail> {
    let (text, ranges) = *case;
    for (from, to, wanted) in ranges {
        for n in *from..=*to {
            let found = text.get(..n).map(|read| seen(read));
            if found != Some(*wanted) {
                return Err(Fail::new(format!(in alloc; "{} bytes, {n}: {found:?}", text.len())?));
            }
        }
    }
    Ok(())
}

#[test]
fn an_interchange_is_whole_from_its_last_byte_on(rt: HostRuntime) -> Result<(), Fail> {
    for case in CASES {
        expect(rt.alloc(), case)?;
    }
    Ok(())
}
