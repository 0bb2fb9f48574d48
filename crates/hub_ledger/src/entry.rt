use hub_kinds::{Counters, Items, Text, Texts};

/// The numbers of an address in a night.
#[derive(Debug, Drop)]
pub struct AddressNumbers {
    /// What its partner is called in the night's setup.
    pub partner: Text,
    /// Its qualifier and its id, with a space between them.
    pub address: Text,
    /// The numbers that the night begins with.
    pub begun: Counters,
    /// Those that the next night begins with.
    pub left: Counters,
}

/// A file that a night gave, or was to give.
#[derive(Debug, Drop)]
pub struct FileSum {
    /// Its name in the night's folder.
    pub name: Text,
    /// Whether the night gives a file of this name.
    pub is_given: bool,
    /// What the night's sums say; empty if they don't name it.
    pub listed: Text,
    /// The sum of its bytes; empty if it isn't there.
    pub sum: Text,
}

/// What is kept of a night.
#[derive(Debug, Drop)]
pub struct NightEntry {
    /// The name of its folder.
    pub name: Text,
    /// Its date and time, as CCYYMMDDHHMM.
    pub moment: Text,
    /// The keys of the sets that it delivered: where each came from, and who received it.
    pub delivered: Texts,
    /// The keys of the sets that it was asked for again: it may deliver them although older nights did.
    pub again: Texts,
    /// The numbers of each partner of its setup.
    pub addresses: Items<AddressNumbers>,
    /// Its files.
    pub files: Items<FileSum>,
}
