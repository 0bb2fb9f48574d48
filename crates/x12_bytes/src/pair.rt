/// What a text is divided by into segments, and a segment's id ends at: element separator and segment terminator
/// (X12.5, ISA; X12.6, data segment).
#[derive(Clone, Copy, Debug, PartialEq, Eq)]
pub struct Pair {
    pub element: u8,
    pub terminator: u8,
}
