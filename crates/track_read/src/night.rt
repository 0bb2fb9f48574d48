ghost use Rattle.std.specs.Prelude.{◌≡◌, IfOk, map, option_map};
ghost use Rattle.csv.specs.Records.{fields_of};
ghost use Rattle.track_read.specs.Night as night;

use crate::table::read_table;
use csv::ByteRecord;
use hub_kinds::{NoMemory, Text};
use std::alloc::Global;

/// A table as it was read.
#[derive(Drop)]
pub enum TableState {
    /// It has these rows.
    Rows(Vec<ByteRecord>),
    /// Its file can't be read.
    Unread,
    /// Its file isn't a table.
    Wrong,
}

/// The table of a night.
#[derive(Drop)]
pub struct NightTable {
    /// The name of the night.
    pub night: Text,
    pub state: TableState,
}

impl TableState {
    ghost use Rattle.std.specs.Prelude.{◌≡◌, map};
    ghost use Rattle.csv.specs.Records.{fields_of};
    ghost use Rattle.track_read.specs.Night as night;

    /// The rows of the table; none if it wasn't read.
    pub fn rows(&self) -> &[ByteRecord]
        ensures { map fields_of result.now ≡ night.rows_of self.now }
    {
        match self {
            TableState::Rows(rows) => rows.as_slice(),
            TableState::Unread | TableState::Wrong => &[],
        }
    }

    /// Whether the table was read.
    pub fn is_read(&self) -> bool
        ensures { result ≡ night.is_read self.now }
    {
        match self {
            TableState::Rows(_) => true,
            TableState::Unread | TableState::Wrong => false,
        }
    }
}

/// The table in `bytes`, which are none if its file can't be read. The only error is out of memory.
pub fn read_state(alloc: Global, bytes: Option<&[u8]>) -> Result<TableState, NoMemory>
    ensures { IfOk result (night.IsStateOf (option_map (λ b. b.now) bytes.entry)) }
{
    let Some(bytes) = bytes else {
        return Ok(TableState::Unread);
    };
    match read_table(alloc, bytes)? {
        Some(rows) => Ok(TableState::Rows(rows)),
        None => Ok(TableState::Wrong),
    }
}
