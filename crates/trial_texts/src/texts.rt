//! Texts beside those that are wanted.
use std::alloc::Global;
use std::test::Fail;

/// Refuses what doesn't hold, and says what is there otherwise.
pub fn holds(is: bool, otherwise: &'static str) -> Result<(), Fail> {
    if is { Ok(()) } else { Err(otherwise.into()) }
}

/// Refuses another text than the one that is wanted, and shows it.
pub fn same(alloc: Global, found: &[u8], wanted: &[u8]) -> Result<(), Fail> {
    if found == wanted {
        return Ok(());
    }
    Err(Fail::new(String::from_utf8_lossy(alloc, found)?))
}
