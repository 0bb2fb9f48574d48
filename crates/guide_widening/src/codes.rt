ghost use Rattle.std.specs.Prelude.{◌≡◌, ◌++◌, IfOk, OnOk};
ghost use Rattle.hub_kinds.specs.Words.{contains_text};
ghost use Rattle.guide_widening.specs.Changes.{gone_texts, new_texts};
ghost use Rattle.guide_widening.specs.RowDifferences as rows;

use crate::changes::unless;
use crate::difference::{At, Change, Difference, Key, Value};
use crate::push::push;
use guide_tree::{CodeList, Codes};
use hub_kinds::{NoMemory, Text, copy_text};
use std::alloc::Global;

/// Adds each of `texts` that isn't in `other`, as gone.
pub(crate) fn push_gone(
    alloc: Global,
    found: &mut Vec<Difference>,
    at: At,
    key: Key,
    other: &Codes,
    texts: &[Text],
) -> Result<(), NoMemory>
    ensures { OnOk result (found.new.items ≡ found.old.items ++ gone_texts at key other.now texts.now) }
{
    for i in 0..texts.len() {
        let text = texts[i].as_slice();
        let change = unless(other.contains(text), Change::Narrower);
        let old = Value::Text(copy_text(alloc, text)?);
        push(found, at, key, change, old, Value::Nothing)?;
    }
    Ok(())
}

/// Adds each of `texts` that isn't in `other`, as new.
pub(crate) fn push_new(
    alloc: Global,
    found: &mut Vec<Difference>,
    at: At,
    key: Key,
    other: &Codes,
    texts: &[Text],
) -> Result<(), NoMemory>
    ensures { OnOk result (found.new.items ≡ found.old.items ++ new_texts at key other.now texts.now) }
{
    for i in 0..texts.len() {
        let text = texts[i].as_slice();
        let change = unless(other.contains(text), Change::Wider);
        let new = Value::Text(copy_text(alloc, text)?);
        push(found, at, key, change, Value::Nothing, new)?;
    }
    Ok(())
}

/// Adds what two code lists say otherwise.
pub(crate) fn push_codes(
    alloc: Global,
    found: &mut Vec<Difference>,
    at: At,
    old: &Option<CodeList>,
    new: &Option<CodeList>,
) -> Result<(), NoMemory>
    ensures { OnOk result (found.new.items ≡ found.old.items ++ rows.codes_differences at old.now new.now) }
{
    let (change, before, after) = match (old, new) {
        (None, None) => return Ok(()),
        (None, Some(_)) => (Change::Narrower, false, true),
        (Some(_), None) => (Change::Wider, true, false),
        (Some(old), Some(new)) => {
            push_gone(alloc, found, at, Key::Code, &new.used, old.used.as_slice())?;
            return push_new(alloc, found, at, Key::Code, &old.used, new.used.as_slice());
        }
    };
    push(
        found,
        at,
        Key::Codes,
        Some(change),
        Value::Flag(before),
        Value::Flag(after),
    )
}
