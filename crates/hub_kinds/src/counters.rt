/// A partner's numbers: of the next interchange, of the next functional group and of the next transaction set that it is sent
/// (X12.5, interchange control number; X12.6, group control number and transaction set control number; that each partner has
/// its own is own), from 1 to 999,999,999.
#[derive(Clone, Copy, Debug, PartialEq, Eq)]
pub struct Counters {
    /// The number of an interchange.
    pub interchange: u32,
    /// The number of a group.
    pub group: u32,
    /// The number of a set.
    pub set: u32,
}
