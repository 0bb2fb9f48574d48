//! Texts beside those that are wanted.
use std::alloc::Global;
use std::test::Fail;

/// Adds a number.
pub fn add_digits(out: &mut Vec<u8>, alloc: Global, number: u64) -> Result<(), Fail> {
    out.extend_from_slice(format!(in alloc; "{number}")?.as_bytes())?;
    Ok(())
}

/// Adds a number and the byte after it.
pub fn add_number(out: &mut Vec<u8>, alloc: Global, number: u64, behind: u8) -> Result<(), Fail> {
    add_digits(out, alloc, number)?;
    out.push(behind)?;
    Ok(())
}

/// Adds a text and the byte after it.
pub fn add_text(out: &mut Vec<u8>, text: &[u8], behind: u8) -> Result<(), Fail> {
    out.extend_from_slice(text)?;
    out.push(behind)?;
    Ok(())
}

/// Refuses another text than the one that is wanted, and shows it after what it is about.
pub fn same(alloc: Global, of: &[u8], found: &[u8], wanted: &[u8]) -> Result<(), Fail> {
    if found == wanted {
        return Ok(());
    }
    let of = String::from_utf8_lossy(alloc, of)?;
    let found = String::from_utf8_lossy(alloc, found)?;
    Err(Fail::new(format!(in alloc; "{of}: {found}")?))
}
