/// A part of a text between terminators (X12.6), by its offsets in the text.
#[derive(Clone, Copy, Debug, PartialEq, Eq)]
pub enum Part {
    /// A segment from `start` up to its terminator at `end`.
    Segment { start: usize, end: usize },
    /// What follows the last terminator, from `start` up to the text's end. It may be empty.
    Rest { start: usize },
}
