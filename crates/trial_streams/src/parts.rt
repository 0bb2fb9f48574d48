//! A file in parts, as one text.

use hub_kinds::Lent;
use std::alloc::{AllocError, Global};

/// The parts, one after the other.
pub fn joined(alloc: Global, parts: &[Lent<'_>]) -> Result<Vec<u8>, AllocError> {
    let mut text = Vec::new(alloc);
    for i in 0..parts.len() {
        text.extend_from_slice(parts[i].bytes())?;
    }
    Ok(text)
}
