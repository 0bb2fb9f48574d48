//! What is wrong with a value, in words.
ghost use Rattle.std.specs.Prelude.{◌≡◌, ◌++◌, None, IfOk, OnOk, option_map};
ghost use Rattle.toml.specs.View.{view};
ghost use Rattle.key_errors.specs.KeyWords as words;

use crate::list_items::{ListItem, WrongItem, first_wrong, items_at};
use crate::shown::shown_of;
use crate::stop_words::append_stop;
use crate::wanted::item_wanted;
use crate::words::{AFTER, MUST_BE, WRONG_ITEM, WRONG_VALUE};
use guide_toml::{ListedText, element_stop};
use hub_kinds::NoMemory;
use setup_errors::{Detail, Sentence, append, append_sentence};
use std::alloc::Global;
use toml::Value;

fn append_must_be(out: &mut Vec<u8>, wanted: &[u8]) -> Result<(), NoMemory>
    ensures { OnOk result (out.new.items ≡ out.old.items ++ words.must_be wanted.now) }
{
    append_sentence(out, Sentence::One(MUST_BE, Detail::Text(wanted)))
}

fn append_row_said(
    alloc: Global,
    out: &mut Vec<u8>,
    wanted: &[u8],
    text: &[u8],
) -> Result<(), NoMemory>
    ensures { OnOk result (out.new.items ≡ out.old.items ++ words.row_said wanted.now text.now) }
{
    match element_stop(alloc, text) {
        Ok(Some(stop)) => {
            append(out, AFTER.as_bytes())?;
            append_stop(out, &stop)
        }
        Ok(None) => append_must_be(out, wanted),
        Err(NoMemory) => Err(NoMemory),
    }
}

/// Adds why a value can't be in a list.
fn append_item_said(
    alloc: Global,
    out: &mut Vec<u8>,
    wanted: &[u8],
    kind: ListItem,
    value: &Value,
) -> Result<(), NoMemory>
    ensures { OnOk result (out.new.items ≡ out.old.items ++ words.item_said wanted.now kind (view value.now)) }
{
    match (kind, value.as_str()) {
        (ListItem::Guide(ListedText::Element), Some(text)) => {
            append_row_said(alloc, out, wanted, text.as_bytes())
        }
        _ => append_must_be(out, wanted),
    }
}

fn append_item(
    alloc: Global,
    out: &mut Vec<u8>,
    key: &[u8],
    kind: ListItem,
    wrong: WrongItem<'_>,
) -> Result<(), NoMemory>
    ensures { OnOk result (out.new.items ≡ out.old.items
        ++ words.item_words key.now kind (wrong.entry.number, view wrong.entry.value.now)) }
{
    let shown = shown_of(alloc, wrong.value)?;
    let number = Detail::Number(wrong.number);
    let value = Detail::Text(shown.as_slice());
    append_sentence(
        out,
        Sentence::Three(WRONG_ITEM, number, Detail::Text(key), value),
    )?;
    append_item_said(alloc, out, item_wanted(key), kind, wrong.value)
}

fn append_whole(
    alloc: Global,
    out: &mut Vec<u8>,
    key: &[u8],
    wanted: &[u8],
    value: &Value,
) -> Result<(), NoMemory>
    ensures { OnOk result (out.new.items
        ≡ out.old.items ++ words.one_or_whole key.now wanted.now (view value.now) None) }
{
    let shown = shown_of(alloc, value)?;
    let value = Detail::Text(shown.as_slice());
    append_sentence(
        out,
        Sentence::Three(WRONG_VALUE, Detail::Text(key), value, Detail::Text(wanted)),
    )
}

/// The first value of the list at a key that can't be there, where there is one, and what the list's values are.
fn wrong_at<'v>(
    alloc: Global,
    key: &[u8],
    value: &'v Value,
) -> Result<Option<(ListItem, WrongItem<'v>)>, NoMemory>
    ensures { IfOk result (λ found. option_map (λ w. (w.0, w.1.number, view w.1.value.now)) found
        ≡ words.wrong_at key.now (view value.entry.now)) }
{
    match (items_at(key), value.as_array()) {
        (Some(kind), Some(values)) => match first_wrong(alloc, kind, values) {
            Ok(Some(wrong)) => Ok(Some((kind, wrong))),
            Ok(None) => Ok(None),
            Err(NoMemory) => Err(NoMemory),
        },
        _ => Ok(None),
    }
}

/// Adds what is wrong with a value, by what the key wants.
pub(crate) fn append_value(
    alloc: Global,
    out: &mut Vec<u8>,
    key: &[u8],
    wanted: &[u8],
    value: &Value,
) -> Result<(), NoMemory>
    ensures { OnOk result (out.new.items ≡ out.old.items
        ++ words.one_or_whole key.now wanted.now (view value.now) (words.wrong_at key.now (view value.now))) }
{
    match wrong_at(alloc, key, value) {
        Ok(Some((kind, wrong))) => append_item(alloc, out, key, kind, wrong),
        Ok(None) => append_whole(alloc, out, key, wanted, value),
        Err(NoMemory) => Err(NoMemory),
    }
}
