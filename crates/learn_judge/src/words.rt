//! Why a guide doesn't take a set, in words.
use hub_kinds::{Fault, Items, NoMemory, Text, code_text};
use itoa::Buffer;
use set_check::CheckedSet;
use std::alloc::Global;

fn text_of(alloc: Global, words: &[u8]) -> Result<Text, NoMemory> {
    Ok(Items::from_vec(Vec::from_slice(alloc, words)?))
}

/// What is said of a set that is for another guide.
pub(crate) fn another_kind(alloc: Global) -> Result<Text, NoMemory> {
    text_of(alloc, b"its GS01, GS08 or ST01 is another")
}

/// What is said of a text that is too long.
pub(crate) fn too_long(alloc: Global) -> Result<Text, NoMemory> {
    text_of(alloc, b"the file is too long")
}

/// The first fault of a set, or the first code of a set without faults.
pub(crate) fn why_unmet(alloc: Global, set: &CheckedSet) -> Result<Text, NoMemory> {
    let mut words = Vec::new(alloc);
    let faults = set.faults();
    if faults.is_empty() {
        append_code(&mut words, set)?;
    } else {
        append_fault(&mut words, &faults.at(0))?;
    }
    Ok(Items::from_vec(words))
}

fn append_fault(words: &mut Vec<u8>, fault: &Fault) -> Result<(), NoMemory> {
    let mut digits = Buffer::new();
    words.extend_from_slice(b"segment ")?;
    words.extend_from_slice(digits.format(fault.position).as_bytes())?;
    words.extend_from_slice(b", ")?;
    words.extend_from_slice(fault.id.bytes())?;
    match &fault.elem {
        None => {
            words.extend_from_slice(b": IK304 ")?;
            words.extend_from_slice(code_text(fault.code).as_bytes())?;
        }
        Some(elem) => {
            words.extend_from_slice(b", element ")?;
            words.extend_from_slice(digits.format(elem.element).as_bytes())?;
            words.extend_from_slice(b": IK403 ")?;
            words.extend_from_slice(code_text(elem.code).as_bytes())?;
        }
    }
    Ok(())
}

fn append_code(words: &mut Vec<u8>, set: &CheckedSet) -> Result<(), NoMemory> {
    words.extend_from_slice(b"IK502 ")?;
    if let [code, ..] = set.codes() {
        words.extend_from_slice(code_text(*code).as_bytes())?;
    }
    Ok(())
}
