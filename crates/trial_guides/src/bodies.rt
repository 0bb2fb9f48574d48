//! Bodies and their structural faults.
use super::placings::{NOTICE, Shown, expect};
use super::rows::Row;
use std::test::Fail;

/// Bodies of a notice, and the faults of each.
const BODIES: &[[&str; 2]] = &[
    ["BSN~HL~REF*IA~REF*IA~CTT~", ""],
    ["BSN~HL~REF*IA~REF*IA~N1~N4~HL~REF*IA~REF*IA~CTT~", ""],
    // past a maximum: a segment, a loop's segment, a loop, a loop in a loop
    [
        "BSN~BSN~HL~REF*IA~REF*IA~CTT~CTT~",
        "3 BSN() 5 1;8 CTT() 5 9;",
    ],
    [
        "BSN~HL~REF*IA~REF*IA~REF*IA~REF*IA~CTT~",
        "6 REF(HL) 5 4;7 REF(HL) 5 4;",
    ],
    [
        "BSN~HL~REF*IA~REF*IA~HL~REF*IA~REF*IA~HL~REF*IA~REF*IA~CTT~",
        "9 HL(HL) 4 2;",
    ],
    ["BSN~HL~REF*IA~REF*IA~N1~N4~N1~N4~CTT~", "8 N1(N1) 4 5;"],
    // a use where none is allowed
    ["BSN~HL~REF*IA~REF*IA~N1~N3~N4~CTT~", "7 N3(N1) I4 7;"],
    // missing: all, at the front, a loop between, in a loop at a new repetition, in a loop in a loop, at the end
    ["", "2 BSN() 3 1;2 HL(HL) 3 2;2 CTT() 3 9;"],
    ["HL~REF*IA~REF*IA~CTT~", "2 BSN() 3 1;"],
    ["BSN~CTT~", "3 HL(HL) 3 2;"],
    ["BSN~HL~HL~REF*IA~REF*IA~CTT~", "4 REF(HL) 3 4;"],
    ["BSN~HL~REF*IA~REF*IA~N1~CTT~", "7 N4(N1) 3 8;"],
    ["BSN~HL~REF*IA~REF*IA~", "6 CTT() 3 9;"],
    ["BSN~HL~REF*IA~REF*IA~N1~", "7 N4(N1) 3 8;7 CTT() 3 9;"],
    // too few in the first repetition, and in the second
    ["BSN~HL~REF*IA~HL~REF*IA~REF*IA~CTT~", "5 REF(HL) I8 4;"],
    ["BSN~HL~REF*IA~REF*IA~HL~REF*IA~CTT~", "8 REF(HL) I8 4;"],
    // strays: no such id, one of the dictionary, another code, out of sequence
    ["BSN~XYZ~HL~REF*IA~REF*IA~CTT~", "3 XYZ() 1 0;"],
    ["BSN~HL~PER~REF*IA~REF*IA~CTT~", "4 PER() 6 0;"],
    ["BSN~HL~REF*ZZ~REF*IA~REF*IA~CTT~", "4 REF() 2 0;"],
    ["BSN~HL~REF*IA~REF*IA~N4~CTT~", "6 N4() 7 0;"],
    ["BSN~HL~REF*IA~REF*IA~CTT~REF*IA~", "7 REF() 7 0;"],
    // by position, then by code, then by slot
    ["XYZ~CTT~", "2 XYZ() 1 0;3 BSN() 3 1;3 HL(HL) 3 2;"],
    [
        "BSN~HL~REF*IA~N1~N3~CTT~",
        "5 REF(HL) I8 4;6 N3(N1) I4 7;7 N4(N1) 3 8;",
    ],
];

#[test]
fn faults_of_bodies(rt: HostRuntime) -> Result<(), Fail> {
    expect(rt.alloc(), NOTICE, BODIES, Shown::Faults)
}

/// An order with two lines at least.
const ORDER: &[Row] = &[
    Row::Segment("BEG", 1, 1),
    Row::Segment("PO1", 1, 1),
    Row::Segment("PID", 0, 1),
    Row::Loop("LINE", 2, 3, 2),
];

/// Bodies of an order, and the faults of each.
const LINES: &[[&str; 2]] = &[
    ["BEG~PO1~PID~PO1~", ""],
    ["BEG~PO1~PID~", "5 PO1(LINE) I7 2;"],
    ["BEG~", "3 PO1(LINE) 3 2;"],
    ["BEG~PID~", "3 PID() 7 0;4 PO1(LINE) 3 2;"],
    [
        "BEG~PO1~PO1~PO1~PO1~PO1~",
        "6 PO1(LINE) 4 2;7 PO1(LINE) 4 2;",
    ],
];

#[test]
fn faults_of_repetitions(rt: HostRuntime) -> Result<(), Fail> {
    expect(rt.alloc(), ORDER, LINES, Shown::Faults)
}
