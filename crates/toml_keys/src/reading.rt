ghost use Rattle.std.specs.Prelude.{◌≡◌, Option, None, option_map};
ghost use Rattle.toml.specs.Data.{Data, get_member};
ghost use Rattle.toml.specs.View.{table_view, view};
ghost use Rattle.toml_keys.specs.Answers.{Gives};
ghost use Rattle.toml_keys.specs.Reads.{Reads};
ghost use Rattle.toml_keys.specs.Tables as tables;

use crate::file_fault::FileFault;
use crate::text_fault::TextFault;
use std::alloc::Global;
use toml::{Table, Value};

/// How what is at a key is read.
pub trait Reading {
    /// What is read.
    type Read: Drop;

    /// What data is read as, where it has the type and the form that are asked.
    ghost reading: { Self → Data → Option Self.Read };

    /// Reads a value.
    fn read(&self, alloc: Global, value: &Value) -> Result<Self::Read, TextFault>
        ensures { Reads (λ x. x) result (reading self.now (view value.now)) };
}

/// A reading of what may be absent: where it is there, it is something.
#[derive(Clone, Copy)]
pub struct Present<R>(pub R);

impl<R: Reading> Reading for Present<R> {
    type Read = Option<R::Read>;

    ghost reading = { λ r d. tables.value_present (R.reading r.0) d };

    fn read(&self, alloc: Global, value: &Value) -> Result<Option<R::Read>, TextFault> {
        Ok(Some(self.0.read(alloc, value)?))
    }
}

/// An answer for a key, from the reading of what is there.
fn told<T: Drop>(key: &'static str, read: Result<T, TextFault>) -> Result<T, FileFault>
    ensures { (o : Option T) → Reads (λ x. x) read o → Gives result (tables.asked key.now o) }
{
    match read {
        Ok(value) => Ok(value),
        Err(TextFault::Malformed) => Err(FileFault::WrongKind(key)),
        Err(TextFault::NoMemory) => Err(FileFault::NoMemory),
    }
}

/// Reads what is at a key that must be there.
pub fn required<R: Reading>(
    alloc: Global,
    table: &Table,
    key: &'static str,
    reading: &R,
) -> Result<R::Read, FileFault>
    ensures { Gives result (tables.required (R.reading reading.now) key.now (table_view table.now)) }
{
    match value_at(table, key) {
        None => Err(FileFault::Missing(key)),
        Some(value) => told(key, reading.read(alloc, value)),
    }
}

/// Reads what is at a key that may be absent; `absent` means it then.
pub fn optional<R: Reading>(
    alloc: Global,
    table: &Table,
    key: &'static str,
    reading: &R,
    absent: R::Read,
) -> Result<R::Read, FileFault>
    ensures { Gives result (tables.optional absent (R.reading reading.now) key.now (table_view table.now)) }
{
    match value_at(table, key) {
        None => Ok(absent),
        Some(value) => told(key, reading.read(alloc, value)),
    }
}

/// What is at a key.
pub fn value_at<'a>(table: &'a Table, key: &str) -> Option<&'a Value>
    ensures { option_map (λ v. view v.now) result ≡ get_member key.now (table_view table.now) }
{
    table.get(key)
}
