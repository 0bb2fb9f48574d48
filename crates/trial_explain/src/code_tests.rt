//! Each code in its words, once.
use crate::readers::{lines_on, same};
use std::alloc::{AllocError, Global};
use std::test::Fail;

/// IK304 of a segment that is there, and what is said.
pub const SEGMENTS: &[(&str, &str)] = &[
    (
        "1",
        "the segment's id is neither in the guide nor in its dictionary (IK304 1)",
    ),
    (
        "2",
        "the guide has the id, but not with these codes (IK304 2)",
    ),
    ("4", "a loop comes more often than its maximum (IK304 4)"),
    ("5", "a segment comes more often than its maximum (IK304 5)"),
    ("6", "the id is in the guide's dictionary alone (IK304 6)"),
    ("7", "the guide has this segment, but not here (IK304 7)"),
    ("8", "something is wrong with its elements (IK304 8)"),
    ("I4", "a segment or loop with maximum 0 is there (IK304 I4)"),
    ("I9", "a dependency forbids the segment (IK304 I9)"),
];

/// IK304 of a segment that is missing, and what is said.
pub const MISSING: &[(&str, &str)] = &[
    ("3", "is missing (IK304 3)"),
    ("I6", "is missing, and a dependency asks for it (IK304 I6)"),
    (
        "I7",
        "begins a loop that comes less often than its minimum (IK304 I7)",
    ),
    ("I8", "comes less often than its minimum (IK304 I8)"),
];

/// IK403, and what is said of a value.
pub const VALUES: &[(&str, &str, &str)] = &[
    ("4", "is", "shorter than the minimum (IK403 4)"),
    ("5", "is", "longer than the maximum (IK403 5)"),
    (
        "6",
        "has",
        "a byte or a form that its type doesn't allow (IK403 6)",
    ),
    ("7", "is", "a code that the guide doesn't list (IK403 7)"),
    ("8", "is", "no date (IK403 8)"),
    ("9", "is", "no time (IK403 9)"),
    (
        "I6",
        "is",
        "a code that the guide lists as not used, or no level below that of the HL's parent (IK403 I6)",
    ),
];

/// IK403, and what is said of another fault; the last is in no list of this hub.
pub const ELEMENTS: &[(&str, &str)] = &[
    (
        "1",
        "a mandatory element, or a mandatory component of an occurrence that isn't empty, is empty (IK403 1)",
    ),
    ("2", "a condition asks for it (IK403 2)"),
    ("3", "more elements than the guide has (IK403 3)"),
    (
        "10",
        "a second one of several that exclude one another (IK403 10)",
    ),
    ("12", "more occurrences than the guide allows (IK403 12)"),
    ("13", "more components than the guide allows (IK403 13)"),
    ("I9", "a dependency asks for it (IK403 I9)"),
    (
        "I10",
        "an element or component that isn't used isn't empty (IK403 I10)",
    ),
    (
        "I12",
        "HL01, HL02 or HL04 doesn't fit the tree of HLs (IK403 I12)",
    ),
    ("I13", "a dependency forbids it (IK403 I13)"),
    ("11", "a code that this hub doesn't write (IK403 11)"),
];

/// IK502, and what is said.
pub const SETS: &[(&str, &str)] = &[
    (
        "5",
        "a segment or element fault whose code has no I (IK502 5)",
    ),
    (
        "I5",
        "a segment or element fault whose code has an I (IK502 I5)",
    ),
    ("1", "no guide for the set (IK502 1)"),
    ("2", "no SE (IK502 2)"),
    ("3", "SE02 isn't ST02, byte for byte (IK502 3)"),
    (
        "4",
        "SE01 isn't 1 to 10 digits equal to the number of segments, ST and SE among them (IK502 4)",
    ),
    ("7", "ST02 has fewer than four bytes (IK502 7)"),
    (
        "23",
        "an earlier set of the group has the same ST02, byte for byte (IK502 23)",
    ),
    ("I6", "ST03 isn't the guide's convention (IK502 I6)"),
];

/// AK905, and what is said.
pub const GROUPS: &[(&str, &str)] = &[
    ("1", "the sender has no guide with GS01 (AK905 1)"),
    (
        "2",
        "the sender has guides with GS01, but none with GS08 (AK905 2)",
    ),
    ("3", "no GE (AK905 3)"),
    (
        "4",
        "GE02 isn't 1 to 9 digits equal as a number to GS06 (AK905 4)",
    ),
    (
        "5",
        "GE01 isn't 1 to 6 digits equal to the number of sets (AK905 5)",
    ),
    (
        "19",
        "an earlier group of the interchange has the same GS06 (AK905 19)",
    ),
];

/// TA104 and TA105, and what is said.
pub const NOTES: &[(&str, &str)] = &[
    (
        "A*000",
        "accepted (TA104 A): the interchange isn't refused (TA105 000)",
    ),
    (
        "R*001",
        "refused (TA104 R): IEA02 isn't the number of ISA13 (TA105 001)",
    ),
    (
        "R*021",
        "refused (TA104 R): IEA01 isn't the number of groups (TA105 021)",
    ),
    (
        "R*022",
        "refused (TA104 R): a segment is out of place (TA105 022)",
    ),
    (
        "R*023",
        "refused (TA104 R): no IEA: it was truncated (TA105 023)",
    ),
    ("R*024", "refused (TA104 R): a bad GS or ST (TA105 024)"),
    (
        "R*025",
        "refused (TA104 R): an earlier interchange of the night has its number (TA105 025)",
    ),
];

const HEADER: &str =
    "ISA*00*          *00*          *ZZ*HUB            *01*ACME           *260301*1530*^*00501*000000001*0*P*>~";

const SET: &str = "interchange 1, group PO 12, 850 0001: rejected";

/// Whether these segments are reported by these lines, and by totals.
fn expect_lines(alloc: Global, segments: &str, lines: &str, totals: &str) -> Result<(), Fail> {
    let text = format!(in alloc; "{HEADER}{segments}")?;
    let wanted = format!(in alloc; "{lines}total {totals}\n")?;
    match lines_on(alloc, text.as_bytes()) {
        Ok(found) => same(alloc, found.as_slice(), wanted.as_bytes()),
        Err(_) => Err("refused".into()),
    }
}

const OF_A_SET: &str = "ta1s 0 groups 0 sets 1 accepted 0";

/// A set with these notes.
fn set_of(alloc: Global, notes: &str) -> Result<String, AllocError> {
    format!(in alloc; "AK1*PO*12*005010~AK2*850*0001~{notes}IK5*R~")
}

#[test]
fn says_each_segment_code(rt: HostRuntime) -> Result<(), Fail> {
    for (code, words) in SEGMENTS {
        let notes = format!(in rt.alloc(); "IK3*BEG*2**{code}~")?;
        let segments = set_of(rt.alloc(), notes.as_str())?;
        let lines = format!(in rt.alloc(); "{SET}: segment 2 BEG: {words}\n")?;
        expect_lines(rt.alloc(), segments.as_str(), lines.as_str(), OF_A_SET)?;
    }
    Ok(())
}

#[test]
fn says_what_is_missing(rt: HostRuntime) -> Result<(), Fail> {
    for (code, words) in MISSING {
        let notes = format!(in rt.alloc(); "IK3*DTM*7*N1*{code}~IK3*DTM*8**{code}~")?;
        let segments = set_of(rt.alloc(), notes.as_str())?;
        let first = format!(in rt.alloc(); "{SET}: before segment 7 in loop N1: DTM {words}\n")?;
        let lines = format!(in rt.alloc(); "{first}{SET}: before segment 8: DTM {words}\n")?;
        expect_lines(rt.alloc(), segments.as_str(), lines.as_str(), OF_A_SET)?;
    }
    Ok(())
}

#[test]
fn says_what_a_value_is(rt: HostRuntime) -> Result<(), Fail> {
    let place = "segment 2 BEG, element";
    for (code, verb, words) in VALUES {
        let notes = format!(in rt.alloc(); "IK3*BEG*2**8~IK4*5*373*{code}*99~IK4*6*374*{code}~")?;
        let segments = set_of(rt.alloc(), notes.as_str())?;
        let first = format!(in rt.alloc(); "{SET}: {place} 5 (373): 99 {verb} {words}\n")?;
        let lines = format!(in rt.alloc(); "{first}{SET}: {place} 6 (374): {words}\n")?;
        expect_lines(rt.alloc(), segments.as_str(), lines.as_str(), OF_A_SET)?;
    }
    Ok(())
}

#[test]
fn says_each_element_code(rt: HostRuntime) -> Result<(), Fail> {
    for (code, words) in ELEMENTS {
        let notes = format!(in rt.alloc(); "IK3*BEG*2*N1*8~IK4*1>2>3*353*{code}*99~")?;
        let segments = set_of(rt.alloc(), notes.as_str())?;
        let place = "segment 2 BEG in loop N1, element 1, component 2, repetition 3 (353)";
        let lines = format!(in rt.alloc(); "{SET}: {place}: {words}: 99\n")?;
        expect_lines(rt.alloc(), segments.as_str(), lines.as_str(), OF_A_SET)?;
    }
    Ok(())
}

#[test]
fn says_each_set_code(rt: HostRuntime) -> Result<(), Fail> {
    for (code, words) in SETS {
        let segments = format!(in rt.alloc(); "AK1*PO*12~AK2*850*0001~IK5*R*{code}~")?;
        let lines = format!(in rt.alloc(); "{SET}: {words}\n")?;
        expect_lines(rt.alloc(), segments.as_str(), lines.as_str(), OF_A_SET)?;
    }
    Ok(())
}

#[test]
fn says_each_group_code(rt: HostRuntime) -> Result<(), Fail> {
    for (code, words) in GROUPS {
        let segments = format!(in rt.alloc(); "AK1*PO*12~AK9*R*1*1*0*{code}~")?;
        let lines = format!(in rt.alloc(); "interchange 1, group PO 12: rejected: {words}\n")?;
        let totals = "ta1s 0 groups 1 sets 0 accepted 0";
        expect_lines(rt.alloc(), segments.as_str(), lines.as_str(), totals)?;
    }
    Ok(())
}

#[test]
fn says_each_note(rt: HostRuntime) -> Result<(), Fail> {
    for (codes, words) in NOTES {
        let segments = format!(in rt.alloc(); "TA1*000000007*260228*0900*{codes}~")?;
        let lines = format!(in rt.alloc(); "interchange 1, TA1 000000007: {words}\n")?;
        let totals = "ta1s 1 groups 0 sets 0 accepted 0";
        expect_lines(rt.alloc(), segments.as_str(), lines.as_str(), totals)?;
    }
    Ok(())
}

/// Verdicts of a set and a group, and the lines on them.
const VERDICTS: &[(&str, &str, &str)] = &[
    (
        "AK2*850*0001~IK5*A~AK9*A*1*1*1~",
        "",
        "groups 1 sets 1 accepted 1",
    ),
    (
        "AK2*850*0001~IK5*E~AK9*E*1*1*1~",
        "interchange 1, group PO 12, 850 0001: accepted with errors (IK501 E)
interchange 1, group PO 12: accepted with errors (AK901 E)
",
        "groups 1 sets 1 accepted 1",
    ),
    (
        "AK2*850*0001~IK5*R~AK2*850*0002~IK5*A~AK9*P*2*2*1~",
        "interchange 1, group PO 12, 850 0001: rejected (IK501 R)
interchange 1, group PO 12: partly accepted (AK901 P)
",
        "groups 1 sets 2 accepted 1",
    ),
    (
        "AK2*850*0001~IK5*A~AK2*850*0002~IK5*R*4~AK2*850*0003~IK3*BEG*2**8~IK4*1*353*7*99~IK5*E*5~AK9*R*4*3*0*5~",
        "interchange 1, group PO 12: rejected: GE01 isn't 1 to 6 digits equal to the number of sets (AK905 5)
interchange 1, group PO 12, 850 0001: rejected with its group (IK501 A)
interchange 1, group PO 12, 850 0002: rejected: \
SE01 isn't 1 to 10 digits equal to the number of segments, ST and SE among them (IK502 4)
interchange 1, group PO 12, 850 0003: rejected with its group: segment 2 BEG, element 1 (353): \
99 is a code that the guide doesn't list (IK403 7)
",
        "groups 1 sets 3 accepted 0",
    ),
    (
        "AK9*R*1*1*0~",
        "interchange 1, group PO 12: rejected (AK901 R)\n",
        "groups 1 sets 0 accepted 0",
    ),
];

#[test]
fn says_each_verdict(rt: HostRuntime) -> Result<(), Fail> {
    for (sets, lines, totals) in VERDICTS {
        let segments = format!(in rt.alloc(); "AK1*PO*12*005010~{sets}")?;
        let totals = format!(in rt.alloc(); "ta1s 0 {totals}")?;
        expect_lines(rt.alloc(), segments.as_str(), lines, totals.as_str())?;
    }
    Ok(())
}
