//! Segments of a text, and their elements, occurrences and components.
use crate::texts::{holds, same};
use std::alloc::Global;
use std::test::Fail;
use x12_bytes::{Delims, read_header};
use x12_segs::{
    Kind, Part, Parts, SegView, Segments, SetSpan, components, kind_of, lead, next_part,
    occurrences, runs_stand_alone, segments,
};

const ORDER: &[u8] =
    b"ISA*00*          *00*          *01*ACME           *ZZ*HUB            *260228*0900*^*00501*000000007*0*P*>~\
      GS*PO*ACME*BOLT*20260228*0900*12*X*005010~ST*850*0001~BEG*00*SA*PO100**20260228~PO1*1*5*EA*2.50~SE*4*0001~\
      GE*1*12~IEA*1*000000007~";

const DELIMS: Delims = Delims {
    element: b'*',
    component: b'>',
    repetition: Some(b'^'),
    terminator: b'~',
};

/// The ids of the order's segments, and where they begin after the header.
const IDS: &[(&[u8], usize)] = &[
    (b"GS", 0),
    (b"ST", 42),
    (b"BEG", 54),
    (b"PO1", 80),
    (b"SE", 96),
    (b"GE", 106),
    (b"IEA", 114),
];

const LINES: &[u8] = b"\r\nA*1~\n~\r\nB\n~\nrest";

/// The segments of the lines, and where they begin.
const LINE_SEGMENTS: &[(&[u8], usize)] = &[(b"A*1", 2), (b"B\n", 10)];

/// An offset in the lines, and the part that comes next.
const LINE_PARTS: &[(usize, Part)] = &[
    (6, Part::Segment { start: 10, end: 12 }),
    (13, Part::Rest { start: 14 }),
    (18, Part::Rest { start: 18 }),
];

const DIVIDED: &[u8] = b"A*1^2>3**4~";

/// An element's number, and its text.
const ELEMENTS: &[(usize, &[u8])] = &[(1, b"1^2>3"), (2, b""), (3, b"4"), (4, b"")];

/// The numbers of an occurrence and a component of element 1, and its text.
type ComponentCase = (usize, usize, &'static [u8]);

const COMPONENTS: &[ComponentCase] = &[(2, 2, b"3"), (3, 1, b"")];

/// The elements of the segment, in their order.
const ALL_ELEMENTS: &[&[u8]] = &[b"1^2>3", b"", b"4"];

/// The occurrences of its element 1, and the components of the second of them.
const ALL_OCCURRENCES: &[&[u8]] = &[b"1", b"2>3"];

const ALL_COMPONENTS: &[&[u8]] = &[b"2", b"3"];

/// The next segment, which begins there.
fn next_at<'a>(left: &mut Segments<'a>, start: usize) -> Result<SegView<'a>, Fail> {
    match left.next() {
        None => Err("no segment".into()),
        Some(segment) => {
            if segment.start() == start {
                Ok(segment)
            } else {
                Err("a segment elsewhere".into())
            }
        }
    }
}

fn ends(mut left: Segments<'_>) -> Result<(), Fail> {
    holds(left.next().is_none(), "one segment more")
}

/// The walk gives just segments of these ids, which begin there.
fn gives_ids(alloc: Global, mut left: Segments<'_>, wanted: &[(&[u8], usize)]) -> Result<(), Fail> {
    for (id, start) in wanted {
        let segment = next_at(&mut left, *start)?;
        same(alloc, segment.id(), id)?;
    }
    ends(left)
}

/// The walk gives just these segments, which begin there.
fn gives_segments(
    alloc: Global,
    mut left: Segments<'_>,
    wanted: &[(&[u8], usize)],
) -> Result<(), Fail> {
    for (bytes, start) in wanted {
        let segment = next_at(&mut left, *start)?;
        same(alloc, segment.bytes(), bytes)?;
    }
    ends(left)
}

#[test]
fn reads_the_segments_of_an_interchange(rt: HostRuntime) -> Result<(), Fail> {
    assert!(rt; ORDER.len() == 236);
    match read_header(ORDER, 0) {
        None => Err("no header".into()),
        Some(header) => gives_ids(rt.alloc(), segments(&ORDER[106..], header.delims()), IDS),
    }
}

#[test]
fn passes_over_line_ends_and_empty_parts(rt: HostRuntime) -> Result<(), Fail> {
    runs_stand_alone(LINES, 0, b'~');
    holds(lead(b"\r\n\nA\r") == 3, "another lead")?;
    gives_segments(rt.alloc(), segments(LINES, DELIMS), LINE_SEGMENTS)
}

fn is_part(from: usize, part: Part) -> bool {
    from <= LINES.len() && next_part(LINES, from, b'~') == part
}

fn are_parts(parts: &[(usize, Part)]) -> bool {
    for (from, part) in parts {
        if !is_part(*from, *part) {
            return false;
        }
    }
    true
}

#[test]
fn finds_the_next_part() -> Result<(), Fail> {
    holds(LINES.len() == 18 && are_parts(LINE_PARTS), "another part")
}

/// The first segment of a text.
fn first_segment(text: &[u8]) -> Option<SegView<'_>> {
    segments(text, DELIMS).next()
}

fn expect_element(alloc: Global, segment: &SegView, element: &(usize, &[u8])) -> Result<(), Fail> {
    let (k, wanted) = *element;
    if k < 1 {
        return Err("no such element".into());
    }
    same(alloc, segment.element(k), wanted)
}

fn expect_elements(
    alloc: Global,
    segment: &SegView,
    elements: &[(usize, &[u8])],
) -> Result<(), Fail> {
    for element in elements {
        expect_element(alloc, segment, element)?;
    }
    Ok(())
}

#[test]
fn reads_elements_by_number(rt: HostRuntime) -> Result<(), Fail> {
    let Some(segment) = first_segment(DIVIDED) else {
        return Err("no segment".into());
    };
    holds(segment.delims() == DELIMS, "other delimiters")?;
    expect_elements(rt.alloc(), &segment, ELEMENTS)
}

/// A segment with elements of nine, eight and seven bytes, and one that isn't there.
const LONG: &[u8] = b"A*123456789*12345678*1234567~";

fn expect_first_elements(alloc: Global, segment: &SegView) -> Result<(), Fail> {
    let (first, second, third) = segment.first_elements();
    same(alloc, first, b"123456789")?;
    same(alloc, second, b"12345678")?;
    same(alloc, third, b"1234567")
}

fn expect_one_element(alloc: Global, mut elements: Parts<'_>) -> Result<(), Fail> {
    same(alloc, elements.next_or_empty(), b"1")?;
    same(alloc, elements.next_or_empty(), b"")
}

#[test]
fn reads_the_first_elements_in_one_walk(rt: HostRuntime) -> Result<(), Fail> {
    let (Some(long), Some(short)) = (first_segment(LONG), first_segment(b"A*1~")) else {
        return Err("no segment".into());
    };
    expect_first_elements(rt.alloc(), &long)?;
    expect_one_element(rt.alloc(), short.elements())
}

fn expect_component(
    alloc: Global,
    segment: &SegView,
    component: &ComponentCase,
) -> Result<(), Fail> {
    let (n, m, wanted) = *component;
    if n < 1 || m < 1 {
        return Err("no such component".into());
    }
    same(alloc, segment.component(1, n, m), wanted)
}

fn expect_components(
    alloc: Global,
    segment: &SegView,
    components: &[ComponentCase],
) -> Result<(), Fail> {
    for component in components {
        expect_component(alloc, segment, component)?;
    }
    Ok(())
}

#[test]
fn reads_occurrences_and_components_by_number(rt: HostRuntime) -> Result<(), Fail> {
    let Some(segment) = first_segment(DIVIDED) else {
        return Err("no segment".into());
    };
    same(rt.alloc(), segment.occurrence(1, 2), b"2>3")?;
    expect_components(rt.alloc(), &segment, COMPONENTS)
}

/// The walk continues with this part.
fn gives_next(alloc: Global, parts: &mut Parts<'_>, wanted: &[u8]) -> Result<(), Fail> {
    match parts.next() {
        None => Err("no part".into()),
        Some(found) => same(alloc, found, wanted),
    }
}

/// The walk gives just these parts.
fn gives(alloc: Global, mut parts: Parts<'_>, wanted: &[&[u8]]) -> Result<(), Fail> {
    for part in wanted {
        gives_next(alloc, &mut parts, part)?;
    }
    holds(parts.next().is_none(), "one part more")
}

fn expect_parts_of(alloc: Global, segment: &SegView) -> Result<(), Fail> {
    gives(alloc, segment.elements(), ALL_ELEMENTS)?;
    gives(alloc, segment.occurrences(1), ALL_OCCURRENCES)?;
    gives(alloc, segment.components(1, 2), ALL_COMPONENTS)
}

#[test]
fn walks_the_parts(rt: HostRuntime) -> Result<(), Fail> {
    match first_segment(DIVIDED) {
        None => Err("no segment".into()),
        Some(segment) => expect_parts_of(rt.alloc(), &segment),
    }
}

const NO_REPETITION_SEPARATOR: Delims = Delims {
    repetition: None,
    ..DELIMS
};

#[test]
fn without_a_repetition_separator_an_element_occurs_once(rt: HostRuntime) -> Result<(), Fail> {
    let found = occurrences(b"1^2>3", NO_REPETITION_SEPARATOR);
    gives(rt.alloc(), found, &[b"1^2>3"])?;
    let found = components(b"1^2>3", NO_REPETITION_SEPARATOR);
    gives(rt.alloc(), found, &[b"1^2", b"3"])
}

/// A segment, and its kind.
const KINDS: &[(&[u8], Kind)] = &[
    (b"IEA*1*7", Kind::InterchangeTrailer),
    (b"GS", Kind::GroupHeader),
    (b"GE*1", Kind::GroupTrailer),
    (b"ST*850", Kind::SetHeader),
    (b"SE*", Kind::SetTrailer),
    (b"TA1*1", Kind::Ta1),
    (b"ISA*00", Kind::Other),
    (b"ST>850", Kind::Other),
    (b"", Kind::Other),
];

fn are_of_kinds(kinds: &[(&[u8], Kind)]) -> bool {
    for (bytes, kind) in kinds {
        if kind_of(&SegView::new(0, bytes, DELIMS)) != *kind {
            return false;
        }
    }
    true
}

#[test]
fn tells_segments_by_their_ids() -> Result<(), Fail> {
    holds(are_of_kinds(KINDS), "another kind")
}

/// The segments of the order's set, and where they begin in the text.
const SET: &[(&[u8], usize)] = &[
    (b"ST*850*0001", 148),
    (b"BEG*00*SA*PO100**20260228", 160),
    (b"PO1*1*5*EA*2.50", 186),
    (b"SE*4*0001", 202),
];

#[test]
fn reads_the_segments_of_a_span(rt: HostRuntime) -> Result<(), Fail> {
    let span = SetSpan {
        start: 148,
        end: 212,
        delims: DELIMS,
        closed: true,
    };
    assert!(rt; span.end <= ORDER.len());
    gives_segments(rt.alloc(), span.segments(ORDER), SET)
}
