use hub_kinds::Lent;
use x12_bytes::Delims;

/// Who sends an interchange to whom, and in which characters (X12.5, interchange control header;
/// X12.6, functional group header).
#[derive(Debug, Drop)]
pub struct Envelope<'a> {
    /// The hub's id qualifier, two characters (ISA05).
    pub hub_qualifier: Lent<'a>,
    /// The hub's id without trailing spaces, at most 15 characters (ISA06).
    pub hub_id: Lent<'a>,
    /// The hub's application code (GS02).
    pub hub_code: Lent<'a>,
    /// The partner's id qualifier, two characters (ISA07).
    pub partner_qualifier: Lent<'a>,
    /// The partner's id without trailing spaces, at most 15 characters (ISA08).
    pub partner_id: Lent<'a>,
    /// The partner's application code (GS03).
    pub partner_code: Lent<'a>,
    /// The usage indicator (ISA15).
    pub usage: u8,
    /// ISA11 as it is written, whether it separates repetitions or not.
    pub repetition: u8,
    /// The delimiters that all is written with.
    pub delims: Delims,
}
