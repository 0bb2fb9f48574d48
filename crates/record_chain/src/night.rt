use hub_kinds::{Items, Text};
use night_record::{NightRecord, SummedFile};

/// A night as it was read from its folder.
#[derive(Debug, Drop)]
pub struct ReadNight {
    pub record: NightRecord,
    /// The SHA-256 of the record's bytes, as 64 hexadecimal digits.
    pub sum: Text,
    /// The files that were found in the folder, with their sums.
    pub found: Items<SummedFile>,
}
