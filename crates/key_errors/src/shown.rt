ghost use Rattle.std.specs.Prelude.{◌≡◌, ◌<◌, ◌++◌, IfOk, OnOk, length};
ghost use Rattle.toml.specs.View.{items_view, view};
ghost use Rattle.key_errors.specs.Shown as shown;

use crate::words::{DATE, LIST, POINT, TABLE};
use hub_kinds::NoMemory;
use itoa::Buffer;
use setup_errors::{append, append_number};
use std::alloc::Global;
use toml::Value;

/// A digit of the base 16.
pub(crate) fn digit(n: u8) -> u8
    requires { n < 16 }
    ensures { result ≡ shown.digit n }
{
    if n < 10 { 48 + n } else { 55 + n }
}

/// Whether a byte can't be seen.
pub(crate) fn is_control(byte: u8) -> bool
    ensures { result ≡ shown.is_control byte }
{
    byte < 32 || byte == 127
}

fn append_escaped(out: &mut Vec<u8>, byte: u8) -> Result<(), NoMemory>
    ensures { OnOk result (out.new.items ≡ out.old.items ++ shown.escaped byte) }
{
    append(out, b"\\u00")?;
    append(out, &[digit(byte / 16), digit(byte % 16)])
}

fn append_byte(out: &mut Vec<u8>, byte: u8) -> Result<(), NoMemory>
    ensures { OnOk result (out.new.items ≡ out.old.items ++ shown.shown_byte byte) }
{
    if is_control(byte) {
        append_escaped(out, byte)
    } else if byte == b'"' || byte == b'\\' {
        append(out, &[b'\\', byte])
    } else {
        append(out, &[byte])
    }
}

fn append_bytes(out: &mut Vec<u8>, text: &[u8]) -> Result<(), NoMemory>
    ensures { OnOk result (out.new.items ≡ out.old.items ++ shown.shown_bytes text.now) }
{
    for i in 0..text.len() {
        append_byte(out, text[i])?;
    }
    Ok(())
}

/// Adds a text in quotes, what can't be seen as TOML escapes it.
pub(crate) fn append_shown_text(out: &mut Vec<u8>, text: &[u8]) -> Result<(), NoMemory>
    ensures { OnOk result (out.new.items ≡ out.old.items ++ shown.shown_text text.now) }
{
    append(out, b"\"")?;
    append_bytes(out, text)?;
    append(out, b"\"")
}

#[tactic(auto, using(crate::proofs::Counted::counted))]
fn count_of(values: &[Value]) -> u64
    ensures { result ≡ shown.count_of (items_view values.now) }
{
    values.len() as u64
}

fn append_integer(out: &mut Vec<u8>, number: i64) -> Result<(), NoMemory>
    ensures { OnOk result (out.new.items ≡ out.old.items ++ shown.integer_text number) }
{
    let mut digits = Buffer::new();
    append(out, digits.format(number).as_bytes())
}

fn append_flag(out: &mut Vec<u8>, flag: bool) -> Result<(), NoMemory>
    ensures { OnOk result (out.new.items ≡ out.old.items ++ shown.flag_text flag) }
{
    if flag {
        append(out, b"true")
    } else {
        append(out, b"false")
    }
}

fn append_list(out: &mut Vec<u8>, values: &[Value]) -> Result<(), NoMemory>
    ensures { OnOk result (out.new.items ≡ out.old.items ++ shown.list_text (items_view values.now)) }
{
    append(out, LIST.as_bytes())?;
    append_number(out, count_of(values))
}

/// Adds a value of a file; of a list how long it is.
fn append_shown(out: &mut Vec<u8>, value: &Value) -> Result<(), NoMemory>
    ensures { OnOk result (out.new.items ≡ out.old.items ++ shown.shown (view value.now)) }
{
    match value {
        Value::String(text) => append_shown_text(out, text.as_str().as_bytes()),
        Value::Integer(number) => append_integer(out, *number),
        Value::Float(_) => append(out, POINT.as_bytes()),
        Value::Boolean(flag) => append_flag(out, *flag),
        Value::Datetime(_) => append(out, DATE.as_bytes()),
        Value::Array(values) => append_list(out, values),
        Value::Table(_) => append(out, TABLE.as_bytes()),
    }
}

/// A value of a file as it is shown. The only error is out of memory.
pub(crate) fn shown_of(alloc: Global, value: &Value) -> Result<Vec<u8>, NoMemory>
    ensures { IfOk result (λ text. text.items ≡ shown.shown (view value.now)) }
{
    let mut text = Vec::new(alloc);
    append_shown(&mut text, value)?;
    Ok(text)
}
