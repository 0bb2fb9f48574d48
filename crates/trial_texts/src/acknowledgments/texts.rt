//! Texts beside those that are wanted.
use std::alloc::Global;
use std::test::Fail;

/// Refuses another text than the one that is wanted, and shows it after what it is about.
pub fn same(alloc: Global, of: &str, found: &[u8], wanted: &[u8]) -> Result<(), Fail> {
    if found == wanted {
        return Ok(());
    }
    let found = String::from_utf8_lossy(alloc, found)?;
    Err(Fail::new(format!(in alloc; "{of}: {found}")?))
}
