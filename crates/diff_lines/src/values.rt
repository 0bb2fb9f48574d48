ghost use Rattle.std.specs.Prelude.{◌≡◌, ◌++◌, OnOk, decimal};
ghost use Rattle.diff_lines.specs.Words as words;

use guide_tree::ElementType;
use guide_widening::{Key, Presence, Value};
use hub_kinds::NoMemory;
use itoa::Buffer;

/// Adds `text` to `out`.
pub(crate) fn append(out: &mut Vec<u8>, text: &[u8]) -> Result<(), NoMemory>
    ensures { OnOk result (out.new.items ≡ out.old.items ++ text.now) }
{
    out.extend_from_slice(text)?;
    Ok(())
}

/// Adds `number` to `out`.
pub(crate) fn append_number(out: &mut Vec<u8>, number: u64) -> Result<(), NoMemory>
    ensures { OnOk result (out.new.items ≡ out.old.items ++ decimal number) }
{
    let mut digits = Buffer::new();
    append(out, digits.format(number).as_bytes())
}

fn flag_text(key: Key, flag: bool) -> &'static [u8]
    ensures { result.now ≡ words.flag_text key flag }
{
    match (key, flag) {
        (Key::Hierarchy, true) => b"given",
        (Key::Hierarchy, false) => b"none",
        (Key::Codes, true) => b"listed",
        (Key::Codes, false) => b"any",
        (_, true) => b"true",
        (_, false) => b"false",
    }
}

fn presence_text(presence: Presence) -> &'static [u8]
    ensures { result.now ≡ words.presence_text presence }
{
    match presence {
        Presence::Mandatory => b"M",
        Presence::Optional => b"O",
        Presence::NotUsed => b"N",
    }
}

fn append_type(out: &mut Vec<u8>, data_type: ElementType) -> Result<(), NoMemory>
    ensures { OnOk result (out.new.items ≡ out.old.items ++ words.type_text data_type) }
{
    match data_type {
        ElementType::Text => append(out, b"AN"),
        ElementType::Identifier => append(out, b"ID"),
        ElementType::Number(places) => {
            append(out, b"N")?;
            append_number(out, u64::from(places))
        }
        ElementType::Decimal => append(out, b"R"),
        ElementType::Date => append(out, b"DT"),
        ElementType::Time => append(out, b"TM"),
    }
}

fn append_uses(out: &mut Vec<u8>, min: u32, max: u32) -> Result<(), NoMemory>
    ensures { OnOk result (out.new.items ≡ out.old.items ++ words.uses_text min max) }
{
    append_number(out, u64::from(min))?;
    append(out, b" to ")?;
    append_number(out, u64::from(max))
}

/// Adds what one of two guides says of `key`.
pub(crate) fn append_value(out: &mut Vec<u8>, key: Key, value: &Value) -> Result<(), NoMemory>
    ensures { OnOk result (out.new.items ≡ out.old.items ++ words.value_text key value.now) }
{
    match value {
        Value::Nothing => append(out, b"none"),
        Value::Number(number) => append_number(out, *number),
        Value::Text(text) => append(out, text.as_slice()),
        Value::Flag(flag) => append(out, flag_text(key, *flag)),
        Value::Presence(presence) => append(out, presence_text(*presence)),
        Value::Type(data_type) => append_type(out, *data_type),
        Value::Uses(min, max) => append_uses(out, *min, *max),
    }
}
