//! What is said of bytes that are no table, and where.
ghost use Rattle.std.specs.Prelude.{◌≡◌, ◌≤◌, length, IfOk};
ghost use Rattle.key_errors.specs.NoTables.{IsNoTableSaid};
ghost use Rattle.key_errors.specs.TextPlaces.{said_at};

use crate::text_places::append_said_at;
use crate::toml_cause::cause_of;
use crate::words::{NO_TABLE, NO_UTF_8};
use hub_kinds::{Items, NoMemory, Text};
use std::alloc::Global;

/// A fault that the parser finds: where, and why.
#[derive(Clone, Copy)]
struct TomlFault {
    offset: usize,
    cause: &'static str,
}

/// The first fault that the parser finds; at the end, where it finds none.
fn fault_of(alloc: Global, text: &str) -> Result<TomlFault, NoMemory>
    ensures { IfOk result (λ fault. fault.offset ≤ length text.now) }
{
    match toml::table_from_str(alloc, text) {
        Ok(_) => Ok(TomlFault {
            offset: text.len(),
            cause: NO_TABLE,
        }),
        Err(error) => match error.span() {
            None => Err(NoMemory),
            Some(span) => Ok(TomlFault {
                offset: span.start,
                cause: cause_of(error.message()),
            }),
        },
    }
}

fn text_at(alloc: Global, bytes: &[u8], offset: usize, said: &str) -> Result<Text, NoMemory>
    requires { offset ≤ length bytes.now }
    ensures { IfOk result (λ text. text ≡ said_at bytes.now offset said.now) }
{
    let mut text = Vec::new(alloc);
    append_said_at(&mut text, bytes, offset, said.as_bytes())?;
    Ok(Items::from_vec(text))
}

/// What is said of bytes that are no table. The only error is out of memory.
pub fn no_table_text(alloc: Global, bytes: &[u8]) -> Result<Text, NoMemory>
    ensures { IfOk result (IsNoTableSaid bytes.now) }
{
    match std::str::from_utf8(bytes) {
        Err(error) => text_at(alloc, bytes, error.valid_up_to(), NO_UTF_8),
        Ok(text) => {
            let fault = fault_of(alloc, text)?;
            text_at(alloc, bytes, fault.offset, fault.cause)
        }
    }
}
