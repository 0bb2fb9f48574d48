use hub_kinds::{Items, Text};

/// A file of a night, and its sum.
#[derive(Debug, Drop)]
pub struct SummedFile {
    /// Its name in the night's folder.
    pub name: Text,
    /// The SHA-256 of its bytes, as 64 hexadecimal digits.
    pub sum: Text,
}

/// What a hub writes down of a night.
#[derive(Debug, Drop)]
pub struct NightRecord {
    /// The number of the night, counted from 1.
    pub number: u32,
    /// What the night is called.
    pub name: Text,
    /// The date and time that everything of the night bears, as CCYYMMDDHHMM.
    pub moment: Text,
    /// The SHA-256 of the record of the night before; none in the first record of a hub.
    pub before: Option<Text>,
    /// The exit status of the run.
    pub status: u8,
    /// The release of the program.
    pub release: Text,
    /// What the clock of the host said, as CCYYMMDDHHMM.
    pub clock: Text,
    /// The files that the night was made of.
    pub made_of: Items<SummedFile>,
    /// The files that the night gave.
    pub gave: Items<SummedFile>,
}
