use crate::lookup::{table_in, text_at};
use crate::subjects::push_subjects;
use hub_kinds::{NoMemory, Text};
use std::alloc::Global;
use std::marker::Model;
use toml::Table;

/// The words for a guide, which contracts see as the lists of their file's tables.
#[derive(Drop)]
pub struct Names {
    table: Table,
}

impl Model for Names {
    ghost use Rattle.toml.specs.View.{table_view};
    ghost use Rattle.guide_names.specs.Names.{Words, words_of};

    ghost Value = { Words };

    ghost view = { λ n. words_of (table_view n.table) };
}

impl Names {
    ghost use Rattle.std.specs.Prelude.{◌≡◌, IfOk, option_map};
    ghost use Rattle.toml.specs.View.{table_view};
    ghost use Rattle.guide_names.specs.Names as names;
    ghost use Rattle.guide_names.specs.Subjects.{subjects};

    /// No words at all.
    pub fn none(alloc: Global) -> Names
        ensures { result ≡ names.no_words }
    {
        Names {
            table: Table::new(alloc),
        }
    }

    /// The words that a table has.
    pub(crate) fn of(table: Table) -> Names
        ensures { result ≡ names.words_of (table_view table) }
    {
        Names { table }
    }

    /// All that there are words for: segments, then elements, each with its codes, then labels.
    pub fn subjects(&self, alloc: Global) -> Result<Vec<Text>, NoMemory>
        ensures { IfOk result (λ found. found.items ≡ subjects self.now) }
    {
        let mut found = Vec::new(alloc);
        push_subjects(alloc, &mut found, &self.table)?;
        Ok(found)
    }

    /// The name of the set.
    pub fn set_name(&self) -> Option<&[u8]>
        ensures { option_map (λ t. t.now) result ≡ names.set_name self.entry.now }
    {
        text_at(table_in(Some(&self.table), b"set"), b"name")
    }

    /// The note on the set.
    pub fn set_note(&self) -> Option<&[u8]>
        ensures { option_map (λ t. t.now) result ≡ names.set_note self.entry.now }
    {
        text_at(table_in(Some(&self.table), b"set"), b"note")
    }

    /// The name of the segment with an `id`.
    pub fn segment(&self, id: &[u8]) -> Option<&[u8]>
        ensures { option_map (λ t. t.now) result ≡ names.segment_name self.entry.now id.now }
    {
        text_at(table_in(Some(&self.table), b"segment"), id)
    }

    /// The table of the element with a `reference` number.
    fn element_words(&self, reference: &[u8]) -> Option<&Table>
        ensures { names.texts_of (names.members_or_none (option_map (λ t. table_view t.now) result))
            ≡ names.entries_at reference.now self.entry.now.elements }
    {
        table_in(table_in(Some(&self.table), b"element"), reference)
    }

    /// The name of the element with a `reference` number.
    pub fn element(&self, reference: &[u8]) -> Option<&[u8]>
        ensures { option_map (λ t. t.now) result ≡ names.element_name self.entry.now reference.now }
    {
        text_at(self.element_words(reference), b"name")
    }

    /// The name of a `code` of the element with a `reference` number.
    pub fn code(&self, reference: &[u8], code: &[u8]) -> Option<&[u8]>
        ensures { option_map (λ t. t.now) result ≡ names.code_name self.entry.now reference.now code.now }
    {
        text_at(self.element_words(reference), code)
    }

    /// The note on the segment with a `label`.
    pub fn label_note(&self, label: &[u8]) -> Option<&[u8]>
        ensures { option_map (λ t. t.now) result ≡ names.label_note self.entry.now label.now }
    {
        text_at(
            table_in(table_in(Some(&self.table), b"label"), label),
            b"note",
        )
    }
}
