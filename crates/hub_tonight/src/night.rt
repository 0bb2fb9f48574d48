use hub_kinds::{Items, Text};
use night_record::AddressNext;
use night_shelf::NightFile;

/// A night.
#[derive(Drop)]
pub struct Tonight {
    /// The counters file that it begins with.
    pub counters: Text,
    /// The files that it gives, with their names in its folder: those of each partner in the order of the setup, then the report and the
    /// next counters.
    pub out: Items<NightFile>,
    /// The last line of its report, with its LF.
    pub total: Text,
    /// The table of where each set is.
    pub track: Text,
    /// 0 if the night is clean, otherwise 1.
    pub status: u8,
    /// What comes next for the address of each partner, in the order of the setup.
    pub left: Items<AddressNext>,
}
