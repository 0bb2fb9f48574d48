//! Why there is no proposal.
use file_names::append_shown;
use hub_kinds::{Items, NoMemory, Text};
use itoa::Buffer;
use learn_samples::Sample;
use std::alloc::Global;

/// What a set has that no proposal can say; `sample` is the set's number among the samples, from 0.
#[derive(Clone, Copy)]
pub(crate) enum Trouble<'a> {
    /// A segment is there again after another one.
    Again {
        id: &'a [u8],
        after: &'a [u8],
        sample: usize,
    },
    /// The id of a segment is none that a guide can have.
    Id {
        id: &'a [u8],
        sample: usize,
    },
    /// A hierarchy has a level that a guide can't name.
    Level {
        level: &'a [u8],
        sample: usize,
    },
    /// The parent of an HL isn't around it.
    Parent {
        number: &'a [u8],
        sample: usize,
    },
    /// Loops are nested too deep.
    Deep {
        sample: usize,
    },
}

/// An order in which a set has two segments or loops: the one before the other.
#[derive(Clone, Copy)]
pub(crate) struct Follows<'a> {
    pub before: &'a [u8],
    pub after: &'a [u8],
    pub sample: usize,
}

/// Adds a number.
pub(crate) fn append_number(out: &mut Vec<u8>, number: usize) -> Result<(), NoMemory> {
    let mut digits = Buffer::new();
    out.extend_from_slice(digits.format(number).as_bytes())?;
    Ok(())
}

pub(crate) fn append(out: &mut Vec<u8>, text: &[u8]) -> Result<(), NoMemory> {
    out.extend_from_slice(text)?;
    Ok(())
}

/// Says which set it is: `set 3 of FILE`.
pub(crate) fn append_set(
    out: &mut Vec<u8>,
    samples: &[Sample],
    files: &[&str],
    sample: usize,
) -> Result<(), NoMemory> {
    let Some(found) = samples.get(sample) else {
        return Ok(());
    };
    append(out, b"set ")?;
    append_number(out, found.number)?;
    let Some(file) = files.get(found.file) else {
        return Ok(());
    };
    append(out, b" of ")?;
    append_shown(out, file.as_bytes())
}

/// What is said of a trouble, in four parts, and of which sample: the second and the fourth part are from the set.
fn parts_of<'a>(trouble: Trouble<'a>) -> (usize, [&'a [u8]; 4]) {
    let none: &[u8] = b"";
    match trouble {
        Trouble::Again { id, after, sample } => (sample, [none, id, b" again after ", after]),
        Trouble::Id { id, sample } => (
            sample,
            [b"no guide can have the segment id ", id, none, none],
        ),
        Trouble::Level { level, sample } => (
            sample,
            [b"no guide can have the level ", level, none, none],
        ),
        Trouble::Parent { number, sample } => (
            sample,
            [b"HL ", number, b" isn't inside its parent", none],
        ),
        Trouble::Deep { sample } => (
            sample,
            [b"loops are nested over eight deep", none, none, none],
        ),
    }
}

/// The words of a trouble.
pub(crate) fn trouble_words(
    alloc: Global,
    samples: &[Sample],
    files: &[&str],
    trouble: Trouble,
) -> Result<Text, NoMemory> {
    let mut out = Vec::new(alloc);
    let (sample, parts) = parts_of(trouble);
    append_set(&mut out, samples, files, sample)?;
    append(&mut out, b": ")?;
    append(&mut out, parts[0])?;
    append_shown(&mut out, parts[1])?;
    append(&mut out, parts[2])?;
    append_shown(&mut out, parts[3])?;
    Ok(Items::from_vec(out))
}

/// The words of orders that go round: no one order follows all of them.
pub(crate) fn orders_words(
    alloc: Global,
    samples: &[Sample],
    files: &[&str],
    orders: &[Follows],
) -> Result<Text, NoMemory> {
    let mut out = Vec::from_slice(alloc, b"there is no one order: ")?;
    for k in 0..orders.len() {
        if k > 0 {
            append(&mut out, b", ")?;
        }
        append_shown(&mut out, orders[k].before)?;
        append(&mut out, b" before ")?;
        append_shown(&mut out, orders[k].after)?;
        append(&mut out, b" in ")?;
        append_set(&mut out, samples, files, orders[k].sample)?;
    }
    Ok(Items::from_vec(out))
}
