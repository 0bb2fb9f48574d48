ghost use Rattle.std.specs.Prelude.{◌≡◌, ◌++◌, IfOk, OnOk, if◌then◌else◌};
ghost use Rattle.diff_lines.specs.Lines as lines;
ghost use Rattle.file_names.specs.Shown.{shown};

use crate::paths::path_at;
use crate::values::{append, append_number, append_value};
use crate::words::{change_text, key_text};
use file_names::append_shown;
use guide_widening::{At, Difference, Key, Value};
use hub_kinds::{NoMemory, Text};
use std::alloc::Global;

/// Adds a position after a hyphen, in two digits or more; nothing for 0.
fn append_position(out: &mut Vec<u8>, position: u64) -> Result<(), NoMemory>
    ensures { OnOk result (out.new.items ≡ out.old.items ++ lines.position_text position) }
{
    if position == 0 {
        return Ok(());
    }
    append(out, if position < 10 { b"-0" } else { b"-" })?;
    append_number(out, position)
}

/// Adds where `at` is in a guide whose nodes have these `paths`.
fn append_place(out: &mut Vec<u8>, paths: &[Text], at: At) -> Result<(), NoMemory>
    ensures { OnOk result (out.new.items ≡ out.old.items ++ lines.place_text paths.now at) }
{
    if at.node == 0 {
        return Ok(());
    }
    append(out, path_at(paths, at.node))?;
    append_position(out, at.element)?;
    append_position(out, at.component)?;
    append(out, b" (")?;
    append_number(out, u64::from(at.node))?;
    append(out, b"): ")
}

/// Whether the new guide has the node no more.
fn is_gone_node(key: Key, new: &Value) -> bool
    ensures { result ≡ lines.is_gone_node key new.now }
{
    match (key, new) {
        (Key::Node, Value::Nothing) => true,
        _ => false,
    }
}

fn paths_for<'a>(old: &'a [Text], new: &'a [Text], difference: &Difference) -> &'a [Text]
    ensures { result.now ≡ (if lines.is_gone_node difference.now.key difference.now.new then old.entry.now else new.entry.now) }
{
    if is_gone_node(difference.key, &difference.new) {
        old
    } else {
        new
    }
}

/// Adds what the new guide says, and what the old one said.
fn append_values(out: &mut Vec<u8>, difference: &Difference) -> Result<(), NoMemory>
    ensures { OnOk result (out.new.items ≡ out.old.items ++ lines.values_text difference.now) }
{
    append(out, key_text(difference.key))?;
    append_value(out, difference.key, &difference.new)?;
    append(out, b", was ")?;
    append_value(out, difference.key, &difference.old)
}

fn text_of(
    alloc: Global,
    old: &[Text],
    new: &[Text],
    difference: &Difference,
) -> Result<Vec<u8>, NoMemory>
    ensures { IfOk result (λ text. text.items ≡ lines.difference_text old.now new.now difference.now) }
{
    let mut text = Vec::new(alloc);
    append(&mut text, change_text(difference.change))?;
    append_place(&mut text, paths_for(old, new, difference), difference.at)?;
    append_values(&mut text, difference)?;
    Ok(text)
}

/// The line of `difference` without its end, of guides whose nodes have the paths `old` and `new`. The only error is out of memory.
pub fn line_of(
    alloc: Global,
    old: &[Text],
    new: &[Text],
    difference: &Difference,
) -> Result<Vec<u8>, NoMemory>
    ensures { IfOk result (λ line. line.items ≡ shown (lines.difference_text old.now new.now difference.now)) }
{
    let text = text_of(alloc, old, new, difference)?;
    let mut line = Vec::new(alloc);
    append_shown(&mut line, text.as_slice())?;
    Ok(line)
}

/// Adds the line of `difference`, of guides whose nodes have the paths `old` and `new`.
pub(crate) fn append_line(
    alloc: Global,
    out: &mut Vec<u8>,
    old: &[Text],
    new: &[Text],
    difference: &Difference,
) -> Result<(), NoMemory>
    ensures { OnOk result (out.new.items ≡ out.old.items ++ lines.difference_line old.now new.now difference.now) }
{
    let line = line_of(alloc, old, new, difference)?;
    append(out, line.as_slice())?;
    append(out, b"\n")
}
