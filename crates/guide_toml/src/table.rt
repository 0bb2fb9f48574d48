ghost use Rattle.std.specs.Prelude.{◌≡◌, None, [], Ok};
ghost use Rattle.toml.specs.Data.{as_str, as_bool};
ghost use Rattle.toml.specs.View.{table_view};
ghost use Rattle.toml_keys.specs.Keys.{least_unknown, if_known};
ghost use Rattle.toml_keys.specs.Tables as tables;
ghost use Rattle.guide_toml.specs.Answers.{Gives};
ghost use Rattle.guide_toml.specs.declared.entry.Form.TheVariants as form;
ghost use Rattle.guide_toml.specs.Entries.{formed};
ghost use Rattle.guide_toml.specs.Keys.{keys_of};
ghost use Rattle.guide_toml.specs.Values as values;

use crate::entry::{Entry, Form};
use crate::fault::GuideFileFault;
use crate::keys::TableKind;
use crate::lists::{EntryText, Formed};
use crate::values::{Flag, GroupCode, Kind};
use guide_tree::{Codes, DependencyKind};
use hub_kinds::{Items, Text, Texts};
use std::alloc::Global;
use toml::Table;
use toml_keys::{AnyText, Count, ListOf, Present, Word, optional, refuse_unknown, required};

/// Refuses the least key that a table of the kind may not have.
pub(crate) fn refuse_unlisted(
    alloc: Global,
    table: &Table,
    kind: TableKind,
) -> Result<(), GuideFileFault>
    ensures { Gives (λ x. x) result (if_known (least_unknown (keys_of kind) (table_view table.now)) (Ok tt)) }
{
    Ok(refuse_unknown(alloc, table, kind.keys())?)
}

/// A text of that many to that many letters or digits.
pub(crate) fn word_at(
    alloc: Global,
    table: &Table,
    key: &'static str,
    least: usize,
    most: usize,
) -> Result<Text, GuideFileFault>
    ensures { Gives (λ x. x) result (tables.required (tables.word_in least most) key.now (table_view table.now)) }
{
    Ok(required(alloc, table, key, &Word { least, most })?)
}

/// The text at a key that may be absent.
pub(crate) fn some_word_at(
    alloc: Global,
    table: &Table,
    key: &'static str,
    least: usize,
    most: usize,
) -> Result<Option<Text>, GuideFileFault>
    ensures { Gives (λ x. x) result (tables.optional None (tables.some_word_in least most) key.now (table_view table.now)) }
{
    Ok(optional(alloc, table, key, &Present(Word { least, most }), None)?)
}

/// A functional identifier code, not that of acknowledgments.
pub(crate) fn group_at(
    alloc: Global,
    table: &Table,
    key: &'static str,
) -> Result<Text, GuideFileFault>
    ensures { Gives (λ x. x) result (tables.required values.group_in key.now (table_view table.now)) }
{
    Ok(required(alloc, table, key, &GroupCode)?)
}

/// Any text.
pub(crate) fn text_at(
    alloc: Global,
    table: &Table,
    key: &'static str,
) -> Result<Text, GuideFileFault>
    ensures { Gives (λ x. x) result (tables.required as_str key.now (table_view table.now)) }
{
    Ok(required(alloc, table, key, &AnyText)?)
}

/// A number of 0 to 4,294,967,295.
pub(crate) fn count_at(
    alloc: Global,
    table: &Table,
    key: &'static str,
) -> Result<u32, GuideFileFault>
    ensures { Gives (λ x. x) result (tables.required tables.count_of_data key.now (table_view table.now)) }
{
    Ok(required(alloc, table, key, &Count)?)
}

/// A truth value.
pub(crate) fn flag_at(
    alloc: Global,
    table: &Table,
    key: &'static str,
) -> Result<bool, GuideFileFault>
    ensures { Gives (λ x. x) result (tables.required as_bool key.now (table_view table.now)) }
{
    Ok(required(alloc, table, key, &Flag)?)
}

/// `need` or `ban`.
pub(crate) fn dependency_kind_at(
    alloc: Global,
    table: &Table,
    key: &'static str,
) -> Result<DependencyKind, GuideFileFault>
    ensures { Gives (λ x. x) result (tables.required values.dependency_kind_in key.now (table_view table.now)) }
{
    Ok(required(alloc, table, key, &Kind)?)
}

/// A list of texts, and what each means.
pub(crate) fn entries_at<T: Entry>(
    alloc: Global,
    table: &Table,
    key: &'static str,
) -> Result<Items<T>, GuideFileFault>
    ensures { Gives (λ x. x) result (tables.required (values.texts_in T.reading) key.now (table_view table.now)) }
{
    let entries: ListOf<EntryText<T>> = ListOf(EntryText::new());
    Ok(required(alloc, table, key, &entries)?)
}

/// The entries at a key that may be absent: then there are none.
pub(crate) fn some_entries_at<T: Entry>(
    alloc: Global,
    table: &Table,
    key: &'static str,
) -> Result<Items<T>, GuideFileFault>
    ensures { Gives (λ x. x) result (tables.optional [] (values.texts_in T.reading) key.now (table_view table.now)) }
{
    let entries: ListOf<EntryText<T>> = ListOf(EntryText::new());
    let none = Items::from_vec(Vec::new(alloc));
    Ok(optional(alloc, table, key, &entries, none)?)
}

/// A list of codes.
pub(crate) fn codes_at(
    alloc: Global,
    table: &Table,
    key: &'static str,
) -> Result<Codes, GuideFileFault>
    ensures { Gives (λ x. x) result (tables.required (values.texts_in (formed form.Code)) key.now (table_view table.now)) }
{
    let texts = required(alloc, table, key, &ListOf(Formed(Form::Code)))?;
    Codes::new(alloc, texts).map_err(|_| GuideFileFault::NoMemory)
}

/// A list of texts of a form; none where it is absent.
pub(crate) fn some_texts_at(
    alloc: Global,
    table: &Table,
    key: &'static str,
    form: Form,
) -> Result<Texts, GuideFileFault>
    ensures { Gives (λ x. x) result (tables.optional [] (values.texts_in (formed form)) key.now (table_view table.now)) }
{
    let none = Items::from_vec(Vec::new(alloc));
    Ok(optional(alloc, table, key, &ListOf(Formed(form)), none)?)
}
