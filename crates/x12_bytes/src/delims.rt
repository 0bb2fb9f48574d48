/// The delimiters of an interchange (X12.5), each a byte. A delimiter byte is a delimiter wherever
/// it is after the header; it can't be escaped.
#[derive(Clone, Copy, Debug, PartialEq, Eq)]
pub struct Delims {
    /// Stands between the elements of a segment.
    pub element: u8,
    /// Stands between the components of an element (ISA16).
    pub component: u8,
    /// Stands between the occurrences of an element (ISA11); `None` where ISA11 can't separate.
    pub repetition: Option<u8>,
    /// Ends a segment.
    pub terminator: u8,
}
