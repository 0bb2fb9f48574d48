/// Under which numbers a delivered set is in its receiver's mailbox, 1 to 999,999,999 each.
#[derive(Clone, Copy, Debug, PartialEq, Eq)]
pub struct Mailed {
    /// The control number of its interchange (X12.5, ISA13).
    pub interchange: u32,
    /// The control number of its group (X12.6, GS06).
    pub group: u32,
    /// Its own control number (X12.6, ST02).
    pub set: u32,
}
