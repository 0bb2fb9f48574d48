ghost use Rattle.std.specs.Prelude.{◌≡◌};
ghost use Rattle.toml.specs.View.{view};
ghost use Rattle.toml_keys.specs.Reads.{Reads};
ghost use Rattle.guide_toml.specs.Entries.{formed};
ghost use Rattle.guide_toml.specs.Values as values;

use crate::entry::{Entry, Form, has_form};
use hub_kinds::Text;
use std::alloc::Global;
use std::marker::PhantomData;
use toml::Value;
use toml_keys::{Reading, TextFault, copy_of};

/// A text, by what it means.
#[derive(Clone, Copy)]
pub struct EntryText<T>(PhantomData<T>);

impl<T: Entry> EntryText<T> {
    /// The reading of these entries.
    pub(crate) fn new() -> EntryText<T> {
        EntryText(PhantomData)
    }
}

impl<T: Entry> Reading for EntryText<T> {
    type Read = T;

    ghost reading = { λ _. values.text_item T.reading };

    fn read(&self, alloc: Global, value: &Value) -> Result<T, TextFault> {
        match value.as_str() {
            None => Err(TextFault::Malformed),
            Some(text) => T::read(alloc, text.as_bytes()),
        }
    }
}

/// A text of a form.
#[derive(Clone, Copy)]
pub struct Formed(pub Form);

impl Reading for Formed {
    type Read = Text;

    ghost reading = { λ f. values.text_item (formed f.0) };

    fn read(&self, alloc: Global, value: &Value) -> Result<Text, TextFault> {
        match value.as_str() {
            None => Err(TextFault::Malformed),
            Some(text) => {
                if !has_form(self.0, text.as_bytes()) {
                    return Err(TextFault::Malformed);
                }
                copy_of(alloc, text.as_bytes())
            }
        }
    }
}
