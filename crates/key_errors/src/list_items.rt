ghost use Rattle.std.specs.Prelude.{◌≡◌, IfOk, option_map};
ghost use Rattle.toml.specs.View.{items_view, view};
ghost use Rattle.key_errors.specs.ListItems as lists;

use crate::rows::find_in;
use guide_toml::{ListedText, can_stand};
use hub_kinds::NoMemory;
use std::alloc::Global;
use toml::Value;

/// What the values of a list are.
#[derive(Clone, Copy, Debug, PartialEq, Eq)]
pub enum ListItem {
    AnyText,
    Guide(ListedText),
}

/// A value that can't be in its list, and its number, from 1 on.
#[derive(Clone, Copy)]
pub struct WrongItem<'v> {
    pub number: u64,
    pub value: &'v Value,
}

fn is_listed(alloc: Global, kind: ListedText, value: &Value) -> Result<bool, NoMemory>
    ensures { IfOk result (λ yes. yes ≡ lists.is_listed kind (view value.now)) }
{
    match value.as_str() {
        None => Ok(false),
        Some(text) => can_stand(alloc, kind, text.as_bytes()),
    }
}

fn is_item(alloc: Global, kind: ListItem, value: &Value) -> Result<bool, NoMemory>
    ensures { IfOk result (λ yes. yes ≡ lists.is_item kind (view value.now)) }
{
    match kind {
        ListItem::AnyText => Ok(value.as_str().is_some()),
        ListItem::Guide(text) => is_listed(alloc, text, value),
    }
}

/// The first value that can't be in a list. The only error is out of memory.
pub(crate) fn first_wrong<'v>(
    alloc: Global,
    kind: ListItem,
    values: &'v [Value],
) -> Result<Option<WrongItem<'v>>, NoMemory>
    ensures { IfOk result (λ found. option_map (λ w. (w.number, view w.value.now)) found
        ≡ lists.first_wrong kind 1 (items_view values.entry.now)) }
{
    for i in 0..values.len() {
        if !is_item(alloc, kind, &values[i])? {
            return Ok(Some(WrongItem {
                number: i as u64 + 1,
                value: &values[i],
            }));
        }
    }
    Ok(None)
}

/// The keys of lists of texts, and what the values of each are.
pub const ITEMS: [(&str, ListItem); 10] = [
    ("elements", ListItem::Guide(ListedText::Element)),
    ("conditions", ListItem::Guide(ListedText::Condition)),
    ("pick", ListItem::Guide(ListedText::Pick)),
    ("pairs", ListItem::Guide(ListedText::LevelPair)),
    ("codes", ListItem::Guide(ListedText::Code)),
    ("dictionary", ListItem::Guide(ListedText::SegmentId)),
    ("tolerate_segment", ListItem::Guide(ListedText::SegmentCode)),
    ("tolerate_element", ListItem::Guide(ListedText::ElementCode)),
    ("guides", ListItem::AnyText),
    ("to", ListItem::AnyText),
];

/// What the values of the list at a key are.
pub(crate) fn items_at(key: &[u8]) -> Option<ListItem>
    ensures { result ≡ lists.items_at key.now }
{
    find_in(&ITEMS, key)
}
