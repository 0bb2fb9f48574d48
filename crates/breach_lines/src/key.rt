ghost use Rattle.std.specs.Prelude.{◌≡◌, ◌≤◌, ◌++◌, OnOk, codes};
ghost use Rattle.breach_lines.specs.Keys as keys;
ghost use Rattle.breach_lines.specs.Lines as lines;

use crate::words::{append, append_after, append_text};
use hub_kinds::NoMemory;

/// The bytes of `text` up to the first `stop`.
fn until(text: &[u8], stop: u8) -> &[u8]
    ensures { result.now ≡ keys.until stop text.now }
{
    let mut end = 0;
    while end < text.len() && text[end] != stop {
        end += 1;
    }
    &text[..end]
}

/// The bytes of `text` after the first `stop`.
fn after(text: &[u8], stop: u8) -> &[u8]
    ensures { result.now ≡ keys.after stop text.now }
{
    let end = until(text, stop).len();
    if end < text.len() {
        &text[end + 1..]
    } else {
        b""
    }
}

/// The bytes of `key` from `from` up to `to`; none if it is shorter.
fn part(key: &[u8], from: usize, to: usize) -> &[u8]
    requires { from ≤ to }
    ensures { result.now ≡ keys.part key.now from to }
{
    if to <= key.len() { &key[from..to] } else { b"" }
}

fn numbers_of(key: &[u8]) -> &[u8]
    ensures { result.now ≡ keys.numbers_of key.now }
{
    if 43 <= key.len() { &key[43..] } else { b"" }
}

/// Appends an id without the spaces that fill its element.
fn append_unspaced(out: &mut Vec<u8>, id: &[u8]) -> Result<(), NoMemory>
    ensures { OnOk result (out.new.items ≡ out.old.items ++ keys.unspaced id.now) }
{
    for i in 0..id.len() {
        if id[i] != b' ' {
            append(out, &[id[i]])?;
        }
    }
    Ok(())
}

fn append_sender(out: &mut Vec<u8>, key: &[u8]) -> Result<(), NoMemory>
    ensures { OnOk result (out.new.items ≡ out.old.items ++ keys.sender_of key.now) }
{
    append(out, part(key, 0, 2))?;
    append_text(out, " ")?;
    append_unspaced(out, part(key, 2, 17))
}

fn append_hub(out: &mut Vec<u8>, key: &[u8]) -> Result<(), NoMemory>
    ensures { OnOk result (out.new.items ≡ out.old.items ++ keys.hub_of key.now) }
{
    append(out, part(key, 17, 19))?;
    append_text(out, " ")?;
    append_unspaced(out, part(key, 19, 34))
}

/// Appends which set of which group has the key.
pub(crate) fn append_set(out: &mut Vec<u8>, key: &[u8]) -> Result<(), NoMemory>
    ensures { OnOk result (out.new.items ≡ out.old.items ++ lines.set_words key.now) }
{
    let numbers = numbers_of(key);
    append_text(out, "set ")?;
    append(out, until(after(numbers, 0), 0))?;
    append_text(out, " of group ")?;
    append(out, until(numbers, 0))
}

/// Appends in which interchange the set of the key came.
pub(crate) fn append_interchange(out: &mut Vec<u8>, key: &[u8]) -> Result<(), NoMemory>
    ensures { OnOk result (out.new.items ≡ out.old.items ++ lines.interchange_words key.now) }
{
    append_after(out, " of interchange ", part(key, 34, 43))?;
    append_ends(out, key)
}

/// Appends who sent the interchange of the key, and to whom.
fn append_ends(out: &mut Vec<u8>, key: &[u8]) -> Result<(), NoMemory>
    ensures { OnOk result (out.new.items ≡ out.old.items
        ++ (codes " from " ++ (keys.sender_of key.now ++ (codes " to " ++ keys.hub_of key.now)))) }
{
    append_text(out, " from ")?;
    append_sender(out, key)?;
    append_text(out, " to ")?;
    append_hub(out, key)
}

/// Appends who received the set of the key, and in which night.
pub(crate) fn append_receipt(out: &mut Vec<u8>, key: &[u8], earlier: &[u8]) -> Result<(), NoMemory>
    ensures { OnOk result (out.new.items ≡ out.old.items ++ lines.receipt_words key.now earlier.now) }
{
    append_after(
        out,
        " was delivered to ",
        after(after(numbers_of(key), 0), 0),
    )?;
    append_after(out, " in night ", earlier)
}

/// The elements of a set's key.
#[derive(Clone, Copy)]
pub struct KeyParts<'a> {
    /// ISA05 to ISA08.
    pub ends: &'a [u8],
    pub isa13: &'a [u8],
    pub gs06: &'a [u8],
    pub st02: &'a [u8],
    /// The receiver's address.
    pub receiver: &'a [u8],
}

/// The elements of `key`.
pub fn key_parts(key: &[u8]) -> KeyParts<'_>
    ensures { keys.AreParts key.now result }
{
    let numbers = numbers_of(key);
    KeyParts {
        ends: part(key, 0, 34),
        isa13: part(key, 34, 43),
        gs06: until(numbers, 0),
        st02: until(after(numbers, 0), 0),
        receiver: after(after(numbers, 0), 0),
    }
}
