//! The lines that failures print.
use file_names::append_shown;
use hub_kinds::{Items, NoMemory, Text};
use itoa::Buffer;
use std::alloc::Global;

pub(crate) fn append(out: &mut Vec<u8>, text: &[u8]) -> Result<(), NoMemory> {
    out.extend_from_slice(text)?;
    Ok(())
}

pub(crate) fn append_number(out: &mut Vec<u8>, number: usize) -> Result<(), NoMemory> {
    let mut digits = Buffer::new();
    append(out, digits.format(number).as_bytes())
}

/// A line that has the program's name alone.
pub(crate) fn line(alloc: Global) -> Result<Vec<u8>, NoMemory> {
    Ok(Vec::from_slice(alloc, b"nighthub_learn: ")?)
}

/// The line that says `words`.
pub(crate) fn line_of(alloc: Global, words: &[u8]) -> Result<Text, NoMemory> {
    let mut out = line(alloc)?;
    append_shown(&mut out, words)?;
    append(&mut out, b"\n")?;
    Ok(Items::from_vec(out))
}

/// The line that says `words` of the file at `path`.
pub(crate) fn line_on(alloc: Global, path: &str, words: &[u8]) -> Result<Text, NoMemory> {
    let mut out = line(alloc)?;
    append_shown(&mut out, path.as_bytes())?;
    append(&mut out, b": ")?;
    append_shown(&mut out, words)?;
    append(&mut out, b"\n")?;
    Ok(Items::from_vec(out))
}

/// The line that says that no set is asked for.
pub(crate) fn no_set(alloc: Global) -> Result<Text, NoMemory> {
    line_of(alloc, b"there is no set to learn from")
}

/// The line that says that the sample file at `path` can't be read.
pub(crate) fn unread(alloc: Global, path: &str) -> Result<Text, NoMemory> {
    line_on(alloc, path, b"it can't be read")
}

/// The line that says that the sample file at `path` has no interchange.
pub(crate) fn empty(alloc: Global, path: &str) -> Result<Text, NoMemory> {
    line_on(alloc, path, b"it has no interchange")
}

/// The line that says in `words` why the proposed guide is refused.
pub(crate) fn refused(alloc: Global, words: &[u8]) -> Result<Text, NoMemory> {
    let mut out = line(alloc)?;
    append(&mut out, b"the guide that was tried is refused: ")?;
    append_shown(&mut out, words)?;
    append(&mut out, b"\n")?;
    Ok(Items::from_vec(out))
}

/// The line that says in `words` why the proposed guide doesn't take set `number` of the file at `path`.
pub(crate) fn untaken(
    alloc: Global,
    path: &str,
    number: usize,
    words: &[u8],
) -> Result<Text, NoMemory> {
    let mut out = line(alloc)?;
    append(&mut out, b"set ")?;
    append_number(&mut out, number)?;
    append(&mut out, b" of ")?;
    append_shown(&mut out, path.as_bytes())?;
    append(&mut out, b": the guide that was tried doesn't take it: ")?;
    append_shown(&mut out, words)?;
    append(&mut out, b"\n")?;
    Ok(Items::from_vec(out))
}
