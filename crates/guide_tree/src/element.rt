use crate::codes::Codes;
use hub_kinds::{Items, Text};

/// The type of a data element (X12.6, data element types).
#[derive(Clone, Copy, Debug, PartialEq, Eq)]
pub enum ElementType {
    /// `AN`: a string.
    Text,
    /// `ID`: an identifier.
    Identifier,
    /// `N0` to `N9`: a number with that many implied decimal places.
    Number(u8),
    /// `R`: a decimal number.
    Decimal,
    /// `DT`: a date.
    Date,
    /// `TM`: a time.
    Time,
}

/// Whether a data element must be there (X12.6, data element requirement designator).
#[derive(Clone, Copy, Debug, PartialEq, Eq)]
pub enum Requirement {
    /// `M`: mandatory.
    Mandatory,
    /// `O`: optional.
    Optional,
}

/// The code values that a data element may have: those that are used, and those that are known and not used.
#[derive(Debug, Drop)]
pub struct CodeList {
    pub used: Codes,
    pub unused: Option<Codes>,
}

/// The row of a simple data element or of a component.
#[derive(Debug, Drop)]
pub struct SimpleRow {
    /// The data element reference number as it is written, of 1 to 4 digits; empty where there is none.
    pub reference: Text,
    pub requirement: Requirement,
    pub data_type: ElementType,
    /// The least length, in bytes.
    pub min: u32,
    /// The greatest length, in bytes.
    pub max: u32,
    /// Whether bytes from 0x80 on are allowed.
    pub wide: bool,
    pub codes: Option<CodeList>,
}

/// A component of a composite data element. One that isn't used has its reference number alone.
#[derive(Debug, Drop)]
pub enum Component {
    NotUsed(Text),
    Simple(SimpleRow),
}

/// The row of a composite data element.
#[derive(Debug, Drop)]
pub struct CompositeRow {
    /// The reference number as it is written, of 1 to 4 digits; empty where there is none.
    pub reference: Text,
    pub requirement: Requirement,
    /// How often it may occur.
    pub repeat: u32,
    pub components: Items<Component>,
}

/// A data element of a segment (X12.6, segment): not used, with its reference number alone; simple, with how
/// often it may occur; or composite.
#[derive(Debug, Drop)]
pub enum Element {
    NotUsed(Text),
    Simple(SimpleRow, u32),
    Composite(CompositeRow),
}
