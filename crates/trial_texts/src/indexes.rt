//! The index of a text: its interchanges, and the bytes outside of them.
use crate::interchanges::{ORDER, ORDER_IN_LINES, ORDER_WITHOUT_TRAILER, joined};
use env_index::{Index, IndexedInterchange, index_plain};
use hub_kinds::InterchangeFault;
use std::alloc::Global;
use std::test::Fail;

/// An interchange of an index: its start, its end, how many groups it has, and its fault.
type Seen = (usize, usize, usize, Option<InterchangeFault>);

/// A text in two parts, the interchanges of its index, and how many bytes are outside.
type Case = (&'static [u8], &'static [u8], &'static [Seen], u64);

const CASES: &[Case] = &[
    (b"", b"", &[], 0),
    (b"\r\n ", b" \n\r", &[], 0),
    (ORDER, b"", &[(0, 236, 1, None)], 0),
    (b"HELLO", ORDER, &[(5, 241, 1, None)], 5),
    (b"ISA*00*~", ORDER, &[(8, 244, 1, None)], 8),
    (ORDER, b"ISA*00*~", &[(0, 236, 1, None)], 8),
    (
        ORDER_IN_LINES,
        ORDER,
        &[(0, 250, 1, None), (252, 488, 1, None)],
        0,
    ),
    (
        ORDER_WITHOUT_TRAILER,
        ORDER,
        &[
            (0, 220, 1, Some(InterchangeFault::TrailerMissing)),
            (220, 456, 1, None),
            (456, 692, 1, None),
        ],
        0,
    ),
];

fn index(alloc: Global, text: &[u8]) -> Result<Index<'_>, Fail> {
    if 1000 <= text.len() {
        return Err("long text".into());
    }
    Ok(index_plain(alloc, text)?)
}

fn expect_entry(alloc: Global, entry: &IndexedInterchange, wanted: Seen) -> Result<(), Fail> {
    let interchange = entry.interchange();
    let found = (
        interchange.start(),
        interchange.end(),
        interchange.group_count(),
        entry.fault(),
    );
    if found == wanted {
        return Ok(());
    }
    Err(Fail::new(format!(in alloc; "{found:?}")?))
}

fn expect_entries(
    alloc: Global,
    entries: &[IndexedInterchange],
    wanted: &[Seen],
) -> Result<(), Fail> {
    if entries.len() != wanted.len() {
        return Err("another number of interchanges".into());
    }
    for i in 0..entries.len() {
        expect_entry(alloc, &entries[i], wanted[i])?;
    }
    Ok(())
}

fn expect_found(alloc: Global, found: &Index, text: &[u8], case: &Case) -> Result<(), Fail> {
    let (_, _, wanted, outside) = *case;
    if found.text() != text || found.outside() != outside {
        return Err("another text, or another number of bytes outside".into());
    }
    expect_entries(alloc, found.interchanges(), wanted)
}

fn expect_index_of(alloc: Global, text: &[u8], case: &Case) -> Result<(), Fail> {
    let found = index(alloc, text)?;
    expect_found(alloc, &found, text, case)
}

fn expect_index(alloc: Global, case: &Case) -> Result<(), Fail> {
    let (front, behind, _, _) = *case;
    let text = joined(alloc, front, behind)?;
    expect_index_of(alloc, text.as_slice(), case)
}

fn expect_each(alloc: Global, cases: &[Case]) -> Result<(), Fail> {
    for case in cases {
        expect_index(alloc, case)?;
    }
    Ok(())
}

#[test]
fn indexes_texts(rt: HostRuntime) -> Result<(), Fail> {
    expect_each(rt.alloc(), CASES)
}
