use hub_kinds::Text;

/// A file of a night, or its folder out/.
#[derive(Clone, Copy, Debug, PartialEq, Eq)]
pub enum NightFile {
    Moment,
    Setup,
    Counters,
    /// The counters that it leaves.
    NextCounters,
    Sums,
    Track,
    Input,
    /// Where the sum of its input is written.
    InputSum,
    /// The sets that it was asked for again.
    Again,
    Out,
    /// The sets that archived nights delivered.
    Delivered,
    /// What comes next for each address that archived nights know.
    Addresses,
}

/// What is wrong with a file.
#[derive(Clone, Copy, Debug, PartialEq, Eq)]
pub enum FileState {
    /// It can't be read.
    Unread,
    /// It isn't what a night leaves.
    Wrong,
}

/// A night of which nothing is kept, since a file of it isn't what it must be.
#[derive(Debug, Drop)]
pub struct BadFile {
    pub night: Text,
    pub file: NightFile,
    pub state: FileState,
}
