use hub_kinds::Lent;

/// A night whose number isn't one more than that of the night before it.
#[derive(Debug, Drop)]
pub struct OtherNumber<'a> {
    pub number: u32,
    pub name: Lent<'a>,
    /// The number of the night before it; 0 if there is none.
    pub before: u32,
    /// The name of the night before it; empty if there is none.
    pub before_name: Lent<'a>,
}

/// A night that names another record than the one before it.
#[derive(Debug, Drop)]
pub struct OtherRecord {
    pub number: u32,
    /// The number of the night before it; 0 if there is none.
    pub before: u32,
}

/// What is wrong with a file.
#[derive(Clone, Copy, Debug, PartialEq, Eq)]
pub enum FileFault {
    /// The record lists it, and it isn't there.
    Gone,
    /// It has another sum than the record lists.
    Changed,
    /// The record doesn't list it.
    NotListed,
}

/// A file that isn't what its night's record says.
#[derive(Debug, Drop)]
pub struct WrongFile<'a> {
    pub number: u32,
    pub name: Lent<'a>,
    pub file: Lent<'a>,
    pub fault: FileFault,
}

/// What breaks the chain.
#[derive(Debug, Drop)]
pub enum ChainBreak<'a> {
    Number(OtherNumber<'a>),
    Record(OtherRecord),
    File(WrongFile<'a>),
}
