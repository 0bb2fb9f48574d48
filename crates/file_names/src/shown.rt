ghost use Rattle.std.specs.Prelude.{◌≡◌, ◌<◌, ◌≤◌, ◌+◌, ◌++◌, drop, length, nat_le, nat_lt, ◌&&◌, slice_index, true, IfOk, OnOk};
ghost use Rattle.std.specs.List.{All};
ghost use Rattle.std.specs.Io.KnownBytes.{Appends};
ghost use Rattle.file_names.specs.Shown as shown;

use hub_kinds::NoMemory;
use std::alloc::Global;
use std::io;
use std::io::{ErrorKind, Write};

fn digit(n: u8) -> u8
    requires { n < 16 }
    ensures { result ≡ shown.digit n }
{
    if n < 10 { 48 + n } else { 55 + n }
}

fn is_control(byte: u8) -> bool
    ensures { result ≡ shown.is_control byte }
{
    byte < 32 || byte == 127
}

fn is_late(byte: u8) -> bool
    ensures { result ≡ shown.is_late byte }
{
    128 <= byte && byte < 160
}

fn is_escaped(before: u8, byte: u8, next: u8) -> bool
    ensures { result ≡ shown.is_escaped before byte next }
{
    is_control(byte) || (before == 194 && is_late(byte) || byte == 194 && is_late(next))
}

/// The byte after an offset; after the last one 0.
fn next_of(name: &[u8], at: usize) -> u8
    requires { at < length name.now }
    ensures { result ≡ slice_index (drop (at + 1) name.now) 0 }
{
    if at + 1 < name.len() { name[at + 1] } else { 0 }
}

pub(crate) fn append(out: &mut Vec<u8>, text: &[u8]) -> Result<(), NoMemory>
    ensures { OnOk result (out.new.items ≡ out.old.items ++ text.now) }
{
    out.extend_from_slice(text)?;
    Ok(())
}

pub(crate) fn append_escaped(out: &mut Vec<u8>, byte: u8) -> Result<(), NoMemory>
    ensures { OnOk result (out.new.items ≡ out.old.items ++ shown.escaped byte) }
{
    append(out, b"\\x")?;
    append(out, &[digit(byte / 16), digit(byte % 16)])
}

fn append_byte(out: &mut Vec<u8>, before: u8, byte: u8, next: u8) -> Result<(), NoMemory>
    ensures { OnOk result (out.new.items ≡ out.old.items ++ shown.shown_byte before byte next) }
{
    if byte == 0 {
        Ok(())
    } else if is_escaped(before, byte, next) {
        append_escaped(out, byte)
    } else {
        append(out, &[byte])
    }
}

/// Appends `name` to `out` as it is shown.
pub fn append_shown(out: &mut Vec<u8>, name: &[u8]) -> Result<(), NoMemory>
    ensures { OnOk result (out.new.items ≡ out.old.items ++ shown.shown name.now) }
{
    let mut before = 0;
    for i in 0..name.len() {
        append_byte(out, before, name[i], next_of(name, i))?;
        before = name[i];
    }
    Ok(())
}

/// Appends a delimiter to `out` as it is shown: by its number if it isn't a printable character of ASCII.
pub fn append_delimiter(out: &mut Vec<u8>, byte: u8) -> Result<(), NoMemory>
    ensures { OnOk result (out.new.items ≡ out.old.items ++ shown.shown_delimiter byte) }
{
    if 32 < byte && byte < 127 {
        append(out, &[byte])
    } else {
        append_escaped(out, byte)
    }
}

fn is_plain(name: &[u8]) -> bool
    ensures { result ≡ true → All (λ b. (nat_le 32 b && nat_lt b 127) ≡ true) name.now }
{
    name.iter().all(|b| 32 <= *b && *b < 127)
}

/// Writes `name` to `out` as it is shown. Memory is asked for only if some byte of it isn't a printable one of ASCII.
#[tactic(auto, using(crate::proofs::Plain::plain))]
pub fn print_shown<W: Write>(alloc: Global, name: &[u8], out: &mut W) -> io::Result<()>
    ensures { OnOk result (Appends (W.contents out.old) (W.contents out.new) (shown.shown name.now)) }
{
    if is_plain(name) {
        return out.write_all(name);
    }
    let text = shown_name(alloc, name)?;
    out.write_all(text.as_slice())
}

fn shown_name(alloc: Global, name: &[u8]) -> io::Result<Vec<u8>>
    ensures { IfOk result (λ text. text.items ≡ shown.shown name.now) }
{
    let mut text = Vec::new(alloc);
    match append_shown(&mut text, name) {
        Ok(()) => Ok(text),
        Err(NoMemory) => Err(io::Error::from(ErrorKind::OutOfMemory)),
    }
}
