ghost use Rattle.std.specs.Prelude.{◌≡◌, ◌==◌, ◌++◌, ℕ, List, IfOk, OnOk, false, not, string_bytes};
ghost use Rattle.std.specs.List.{All};
ghost use Rattle.std.specs.Str.{is_utf8};
ghost use Rattle.file_names.specs.Given.{is_marked, marked, marked_byte, text_of};

use crate::shown::{append, append_escaped};
use hub_kinds::NoMemory;
use std::alloc::Global;
use std::env::FillError;
use std::rt::Env;
use std::str;

/// How many bytes an argument has at first; twice as many are tried as often as needed.
const FIRST_ROOM: usize = 4096;

/// The program's arguments, without its name. In one that isn't UTF-8 each byte beyond ASCII is as `\xFC`, and after it NUL, which no
/// argument has: it names no file.
pub fn arguments<R: Env + AllocGlobal>(rt: &R) -> Result<Vec<String>, NoMemory> {
    let mut words = Vec::new(rt.alloc());
    for i in 1..usize::MAX {
        match argument(rt, i)? {
            None => return Ok(words),
            Some(word) => words.push(word)?,
        }
    }
    Ok(words)
}

/// Whether an argument means one that isn't UTF-8.
#[tactic(auto, using(crate::proofs::Marks::marks))]
pub fn is_not_utf_8(word: &str) -> bool
    ensures value { result ≡ is_marked word.now }
    ensures told { (bytes : List ℕ) → All (λ b. (b == 0) ≡ false) bytes → word.now ≡ text_of bytes → result ≡ not (is_utf8 bytes) }
{
    word.as_bytes().ends_with(b"\0")
}

fn argument<R: Env + AllocGlobal>(rt: &R, i: usize) -> Result<Option<String>, NoMemory> {
    match argument_bytes(rt, i)? {
        None => Ok(None),
        Some(bytes) => Ok(Some(text_of(rt.alloc(), bytes.as_slice())?)),
    }
}

/// The bytes of an argument, counted from 0; none after the last one.
fn argument_bytes<R: Env + AllocGlobal>(rt: &R, i: usize) -> Result<Option<Vec<u8>>, NoMemory> {
    let mut room = FIRST_ROOM;
    for _ in 0..20 {
        let mut bytes = Vec::new(rt.alloc());
        bytes.resize(room, 0)?;
        match rt.arg(i, bytes.as_mut_slice()) {
            Ok(count) => {
                bytes.truncate(count);
                return Ok(Some(bytes));
            }
            Err(FillError::NotPresent) => return Ok(None),
            Err(FillError::TooLong) => room = room.saturating_mul(2),
        }
    }
    Err(NoMemory)
}

/// The bytes of an argument as a text.
#[tactic(auto, using(crate::proofs::Texts::as_it_is, crate::proofs::Texts::is_marked_so))]
fn text_of(alloc: Global, bytes: &[u8]) -> Result<String, NoMemory>
    ensures { IfOk result (λ text. string_bytes text ≡ text_of bytes.now) }
{
    match str::from_utf8(bytes) {
        Ok(text) => Ok(String::from_str(alloc, text)?),
        Err(_) => marked(alloc, bytes),
    }
}

fn marked(alloc: Global, bytes: &[u8]) -> Result<String, NoMemory>
    ensures { IfOk result (λ text. string_bytes text ≡ marked bytes.now) }
{
    let mut text = Vec::new(alloc);
    for i in 0..bytes.len() {
        push_byte(&mut text, bytes[i])?;
    }
    text.push(0)?;
    match String::from_utf8(text) {
        Ok(text) => Ok(text),
        Err(_) => Err(NoMemory),
    }
}

fn push_byte(text: &mut Vec<u8>, byte: u8) -> Result<(), NoMemory>
    ensures { OnOk result (text.new.items ≡ text.old.items ++ marked_byte byte) }
{
    if byte < 128 {
        append(text, &[byte])
    } else {
        append_escaped(text, byte)
    }
}
