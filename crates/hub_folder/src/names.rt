ghost use Rattle.std.specs.Prelude.{◌≡◌, ◌≤◌, ◌+◌, IfErr, IfOk, drop};
ghost use Rattle.std.specs.List.{list_all};
ghost use Rattle.hub_folder.specs.Failure.{IsBefore};
ghost use Rattle.hub_folder.specs.Names as names;

use crate::failure::Failure;
use file_names::is_not_utf_8;
use hub_kinds::{Items, NoMemory, Text};
use itoa::Buffer;
use std::alloc::Global;

/// The most nights that a hub has.
const MOST_NIGHTS: u64 = 999_999;

fn is_night_byte(byte: u8) -> bool
    ensures { result ≡ names.is_night_byte byte }
{
    byte.is_ascii_alphanumeric() || (byte == b'_' || byte == b'-')
}

fn are_night_bytes(name: &[u8]) -> bool
    ensures { result ≡ list_all names.is_night_byte name.now }
{
    name.iter().all(|byte| is_night_byte(*byte))
}

/// Whether a night can be called so.
pub fn is_night_name(name: &[u8]) -> bool
    ensures { result ≡ names.is_night_name name.now }
{
    match name {
        [] => false,
        [first, ..] => *first != b'-' && are_night_bytes(name),
    }
}

/// `text` without its first byte.
fn without_first(text: &[u8]) -> &[u8]
    ensures { result.now ≡ drop 1 text.now }
{
    match text {
        [] => text,
        [_, rest @ ..] => rest,
    }
}

/// The folder of the night `number`, which is called `name`.
pub fn folder_name(alloc: Global, number: u32, name: &[u8]) -> Result<Text, NoMemory>
    requires { number ≤ 999999 }
    ensures { IfOk result (λ folder. folder ≡ names.folder_name number name.now) }
{
    let mut digits = Buffer::new();
    let digits = digits.format(number + 1_000_000);
    let mut folder = Vec::from_slice(alloc, without_first(digits.as_bytes()))?;
    folder.extend_from_slice(b"-")?;
    folder.extend_from_slice(name)?;
    Ok(Items::from_vec(folder))
}

/// The number and the folder of the next night, which is called `name`, after `count` nights.
pub(crate) fn next_folder(alloc: Global, count: u64, name: &[u8]) -> Result<(u32, Text), Failure>
    ensures number { IfOk result (λ next. next.0 ≡ count + 1) }
    ensures folder { IfOk result (λ next. next.1 ≡ names.folder_after count name.now) }
    ensures before { IfErr result IsBefore }
{
    if MOST_NIGHTS <= count {
        return Err(Failure::TooMany);
    }
    let number = count as u32 + 1;
    Ok((number, folder_name(alloc, number, name)?))
}

/// Whether `text` is a path: it isn't empty, and is UTF-8.
pub fn is_path(text: &str) -> bool
    ensures { result ≡ names.is_path text.now }
{
    match text.as_bytes() {
        [] => false,
        [..] => !is_not_utf_8(text),
    }
}
