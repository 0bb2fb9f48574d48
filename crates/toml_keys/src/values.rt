ghost use Rattle.std.specs.Prelude.{◌≡◌, Some, option_map};
ghost use Rattle.toml.specs.Data.{as_str};
ghost use Rattle.toml.specs.View.{view};
ghost use Rattle.toml_keys.specs.Reads.{Reads};
ghost use Rattle.toml_keys.specs.Tables as tables;

use crate::reading::Reading;
use crate::text_fault::TextFault;
use hub_kinds::{Text, copy_text, is_alphanumeric};
use std::alloc::Global;
use toml::Value;

/// The greatest number that a file of tables may write: numbers fit 32 bits.
pub const GREATEST_NUMBER: u64 = 4_294_967_295;

/// A copy of a text.
pub fn copy_of(alloc: Global, bytes: &[u8]) -> Result<Text, TextFault>
    ensures { Reads (λ x. x) result (Some bytes.now) }
{
    copy_text(alloc, bytes).map_err(|_| TextFault::NoMemory)
}

/// A text of that many to that many letters or digits.
#[derive(Clone, Copy)]
pub struct Word {
    pub least: usize,
    pub most: usize,
}

impl Reading for Word {
    type Read = Text;

    ghost reading = { λ w. tables.word_in w.least w.most };

    fn read(&self, alloc: Global, value: &Value) -> Result<Text, TextFault> {
        match value.as_str() {
            None => Err(TextFault::Malformed),
            Some(text) => {
                if !is_alphanumeric(text.as_bytes(), self.least, self.most) {
                    return Err(TextFault::Malformed);
                }
                copy_of(alloc, text.as_bytes())
            }
        }
    }
}

/// Any text.
#[derive(Clone, Copy)]
pub struct AnyText;

impl Reading for AnyText {
    type Read = Text;

    ghost reading = { λ _. as_str };

    fn read(&self, alloc: Global, value: &Value) -> Result<Text, TextFault> {
        match value.as_str() {
            None => Err(TextFault::Malformed),
            Some(text) => copy_of(alloc, text.as_bytes()),
        }
    }
}

/// A number of 0 to 4,294,967,295.
#[derive(Clone, Copy)]
pub struct Count;

impl Reading for Count {
    type Read = u32;

    ghost reading = { λ _. tables.count_of_data };

    fn read(&self, _alloc: Global, value: &Value) -> Result<u32, TextFault> {
        match count_in(value) {
            None => Err(TextFault::Malformed),
            Some(count) => Ok(count),
        }
    }
}

fn count_in(value: &Value) -> Option<u32>
    ensures { result ≡ tables.count_of_data (view value.now) }
{
    match value.as_integer() {
        None => None,
        Some(number) => u32::try_from(number).ok(),
    }
}
