use hub_kinds::{Text, Texts};

/// Why a key of a names file is refused.
#[derive(Clone, Copy, Debug, PartialEq, Eq)]
pub enum Cause {
    /// Its table has no such key.
    Unknown,
    /// What is there isn't a text.
    NotText,
    /// What is there isn't a table.
    NotTable,
}

/// A key of a names file that is refused.
#[derive(Debug, Drop)]
pub struct Refused {
    /// The keys of the tables that it is in, from the outermost.
    pub tables: Texts,
    pub key: Text,
    pub why: Cause,
}

/// Why a names file isn't read.
#[derive(Debug, Drop)]
pub enum NamesFault {
    /// The bytes are no TOML table.
    NotToml,
    /// The first key that is refused, a table's keys in the order of bytes.
    Key(Refused),
    /// Memory was asked for and refused.
    NoMemory,
}
