//! Interchanges, their groups and their sets: where each ends, and what the index keeps of it.
use crate::interchanges::{
    HEADER_AS_A_SEGMENT, HEADER_IN_AN_ELEMENT, NOTICES, ORDER, ORDER_IN_LINES,
    ORDER_WITHOUT_TRAILER, WITHOUT_TRAILERS, read,
};
use crate::texts::{holds, same};
use env_index::{
    Interchange, chain_is_one, end_is_least, envelope_is_mapped, envelope_is_of_kinds,
    envelope_is_one, envelope_is_there, index_is_one, judge_interchange, read_interchange,
    sets_stand_alone,
};
use hub_kinds::InterchangeFault;
use std::alloc::Global;
use std::test::Fail;
use x12_segs::SegView;

/// What the index keeps of an interchange, beside its groups.
#[derive(Clone, Copy, Debug, PartialEq, Eq)]
struct Seen {
    extent: (usize, usize),
    ta1s: u32,
    misplaced: bool,
    groups: usize,
    fault: Option<InterchangeFault>,
}

/// A text, the offset of a header in it, and the interchange that begins there.
const INTERCHANGES: &[(&[u8], usize, Seen)] = &[
    (
        ORDER,
        0,
        Seen {
            extent: (0, 236),
            ta1s: 0,
            misplaced: false,
            groups: 1,
            fault: None,
        },
    ),
    (
        ORDER_IN_LINES,
        0,
        Seen {
            extent: (0, 250),
            ta1s: 0,
            misplaced: false,
            groups: 1,
            fault: None,
        },
    ),
    (
        HEADER_IN_AN_ELEMENT,
        0,
        Seen {
            extent: (0, 358),
            ta1s: 0,
            misplaced: false,
            groups: 1,
            fault: None,
        },
    ),
    (
        HEADER_AS_A_SEGMENT,
        0,
        Seen {
            extent: (0, 197),
            ta1s: 0,
            misplaced: false,
            groups: 1,
            fault: Some(InterchangeFault::TrailerMissing),
        },
    ),
    (
        HEADER_AS_A_SEGMENT,
        197,
        Seen {
            extent: (197, 354),
            ta1s: 0,
            misplaced: false,
            groups: 0,
            fault: Some(InterchangeFault::TrailerMissing),
        },
    ),
    (
        ORDER_WITHOUT_TRAILER,
        0,
        Seen {
            extent: (0, 220),
            ta1s: 0,
            misplaced: false,
            groups: 1,
            fault: Some(InterchangeFault::TrailerMissing),
        },
    ),
    (
        ORDER_WITHOUT_TRAILER,
        220,
        Seen {
            extent: (220, 456),
            ta1s: 0,
            misplaced: false,
            groups: 1,
            fault: None,
        },
    ),
    (
        NOTICES,
        0,
        Seen {
            extent: (0, 191),
            ta1s: 2,
            misplaced: false,
            groups: 1,
            fault: Some(InterchangeFault::GroupHeaderInvalid),
        },
    ),
    (
        WITHOUT_TRAILERS,
        0,
        Seen {
            extent: (0, 190),
            ta1s: 0,
            misplaced: false,
            groups: 2,
            fault: Some(InterchangeFault::GroupHeaderInvalid),
        },
    ),
];

fn kept_of(found: &Interchange) -> Seen {
    Seen {
        extent: (found.start(), found.end()),
        ta1s: found.ta1s(),
        misplaced: found.is_misplaced(),
        groups: found.group_count(),
        fault: judge_interchange(found),
    }
}

/// The interchange whose header begins at this offset.
fn look(alloc: Global, text: &[u8], start: usize) -> Result<Seen, Fail> {
    let found = read(alloc, text, start)?;
    Ok(kept_of(&found))
}

fn expect_seen(alloc: Global, case: &(&[u8], usize, Seen)) -> Result<(), Fail> {
    let (text, start, wanted) = *case;
    let found = look(alloc, text, start)?;
    if found == wanted {
        return Ok(());
    }
    Err(Fail::new(format!(in alloc; "{found:?}")?))
}

fn expect_all_seen(alloc: Global, cases: &[(&[u8], usize, Seen)]) -> Result<(), Fail> {
    for case in cases {
        expect_seen(alloc, case)?;
    }
    Ok(())
}

#[test]
fn reads_interchanges(rt: HostRuntime) -> Result<(), Fail> {
    expect_all_seen(rt.alloc(), INTERCHANGES)
}

/// A text, a group's number in its first interchange, its GS06, its GE01 if it has a GE, and how many
/// sets it has.
type Group = (
    &'static [u8],
    usize,
    &'static [u8],
    Option<&'static [u8]>,
    usize,
);

const GROUPS: &[Group] = &[
    (ORDER, 0, b"12", Some(b"1"), 1),
    (HEADER_IN_AN_ELEMENT, 0, b"12", Some(b"1"), 1),
    (NOTICES, 0, b"", Some(b"1"), 1),
    (WITHOUT_TRAILERS, 0, b"", Some(b"2"), 2),
    (WITHOUT_TRAILERS, 1, b"", None, 1),
];

/// Whether an interchange has such a group.
fn has_group(found: &Interchange, case: &Group) -> bool {
    let (_, index, control, listed, sets) = *case;
    if found.group_count() <= index {
        return false;
    }
    let group = found.group(index);
    let trailer = match group.trailer() {
        None => None,
        Some(trailer) => Some(trailer.element(1)),
    };
    group.header().element(6) == control && trailer == listed && group.set_count() == sets
}

fn expect_group(alloc: Global, case: &Group) -> Result<(), Fail> {
    let found = read(alloc, case.0, 0)?;
    holds(has_group(&found, case), "another group")
}

fn expect_groups(alloc: Global, cases: &[Group]) -> Result<(), Fail> {
    for case in cases {
        expect_group(alloc, case)?;
    }
    Ok(())
}

#[test]
fn reads_groups(rt: HostRuntime) -> Result<(), Fail> {
    expect_groups(rt.alloc(), GROUPS)
}

/// A set of a text's first interchange, by the numbers of its group and of it in that.
struct Set {
    text: &'static [u8],
    place: (usize, usize),
    control: &'static [u8],
    segments: u64,
    /// SE01, if it has an SE.
    counted: Option<&'static [u8]>,
    end: usize,
}

const SETS: &[Set] = &[
    Set {
        text: ORDER,
        place: (0, 0),
        control: b"0001",
        segments: 4,
        counted: Some(b"4"),
        end: 212,
    },
    Set {
        text: HEADER_IN_AN_ELEMENT,
        place: (0, 0),
        control: b"0001",
        segments: 6,
        counted: Some(b"6"),
        end: 334,
    },
    Set {
        text: NOTICES,
        place: (0, 0),
        control: b"0001",
        segments: 3,
        counted: Some(b"3"),
        end: 172,
    },
    Set {
        text: WITHOUT_TRAILERS,
        place: (0, 0),
        control: b"0001",
        segments: 2,
        counted: None,
        end: 133,
    },
    Set {
        text: WITHOUT_TRAILERS,
        place: (0, 1),
        control: b"0002",
        segments: 1,
        counted: None,
        end: 145,
    },
    Set {
        text: WITHOUT_TRAILERS,
        place: (1, 0),
        control: b"0001",
        segments: 2,
        counted: Some(b"2"),
        end: 182,
    },
];

/// Whether an interchange has such a set, of this many segments, which ends there.
fn has_set(found: &Interchange, wanted: &Set) -> bool {
    if found.group_count() <= wanted.place.0 {
        return false;
    }
    let group = found.group(wanted.place.0);
    if group.set_count() <= wanted.place.1 {
        return false;
    }
    let set = group.set(wanted.place.1);
    let trailer = set.trailer.map(|x| x.element(1));
    let is_sized = (set.segments, set.end) == (wanted.segments, wanted.end);
    set.header.element(2) == wanted.control && trailer == wanted.counted && is_sized
}

fn expect_set(alloc: Global, set: &Set) -> Result<(), Fail> {
    let found = read(alloc, set.text, 0)?;
    holds(has_set(&found, set), "another set")
}

fn expect_sets(alloc: Global, sets: &[Set]) -> Result<(), Fail> {
    for set in sets {
        expect_set(alloc, set)?;
    }
    Ok(())
}

#[test]
fn reads_sets(rt: HostRuntime) -> Result<(), Fail> {
    expect_sets(rt.alloc(), SETS)
}

fn has_trailer(found: &Interchange, bytes: &[u8]) -> bool {
    match found.trailer() {
        None => false,
        Some(trailer) => trailer.bytes() == bytes,
    }
}

fn is_lent(found: &Interchange) -> bool {
    let extent = (found.start(), found.end());
    let is_numbered = found.header().field(13) == b"000000007".as_slice();
    extent == (0, 236) && is_numbered && has_trailer(found, b"IEA*1*000000007")
}

#[test]
fn lends_the_header_and_the_trailer(rt: HostRuntime) -> Result<(), Fail> {
    assert!(rt; ORDER.len() == 236);
    let found = read(rt.alloc(), ORDER, 0)?;
    holds(is_lent(&found), "another interchange")
}

/// Whether the header of an interchange begins at this offset of a short text.
fn begins_at(alloc: Global, text: &[u8], start: usize) -> Result<bool, Fail> {
    if 1000 <= text.len() {
        return Err("long text".into());
    }
    Ok(read_interchange(alloc, text, start)?.is_some())
}

#[test]
fn no_interchange_begins_elsewhere(rt: HostRuntime) -> Result<(), Fail> {
    let text = ORDER_WITHOUT_TRAILER;
    holds(text.len() == 456, "another length")?;
    holds(!begins_at(rt.alloc(), text, 1)?, "an interchange")
}

#[test]
fn states_the_laws() {
    envelope_is_one();
    envelope_is_there();
    envelope_is_of_kinds::<u8>();
    envelope_is_mapped::<u8, u16>();
    chain_is_one();
    end_is_least();
    index_is_one();
    sets_stand_alone();
}

/// The GS of an interchange's first group: it is lent from the text, and outlives the interchange.
fn first_group_header(interchange: Interchange<'_>) -> Option<SegView<'_>> {
    if interchange.group_count() == 0 {
        return None;
    }
    Some(interchange.group(0).header())
}

#[test]
fn a_group_lends_as_long_as_the_text_lives(rt: HostRuntime) -> Result<(), Fail> {
    match first_group_header(read(rt.alloc(), ORDER, 0)?) {
        None => Err("no group".into()),
        Some(header) => same(rt.alloc(), header.element(2), b"ACME"),
    }
}
