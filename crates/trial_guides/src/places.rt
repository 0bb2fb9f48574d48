//! Bodies and the places of their segments.
use super::placings::{NOTICE, Shown, expect};
use std::test::Fail;

/// Bodies, and the slot and the place of each segment.
const BODIES: &[[&str; 2]] = &[
    ["", ""],
    ["BSN~HL~REF*IA~", "1:0.0;3:1.0/0.0;4:1.0/1.0;"],
    // each repetition begins at the loop's first segment
    [
        "HL~HL~N1~N1~",
        "3:1.0/0.0;3:1.1/0.0;6:1.1/2.0/0.0;6:1.1/2.1/0.0;",
    ],
    // past a maximum, and after a stray
    ["BSN~BSN~XYZ~BSN~", "1:0.0;1:0.1;-;1:0.2;"],
    // a stray changes nothing
    [
        "HL~N4~N1~N4~CTT~HL~",
        "3:1.0/0.0;-;6:1.0/2.0/0.0;8:1.0/2.0/2.0;9:2.0;-;",
    ],
];

#[test]
fn places_of_bodies(rt: HostRuntime) -> Result<(), Fail> {
    expect(rt.alloc(), NOTICE, BODIES, Shown::Places)
}
