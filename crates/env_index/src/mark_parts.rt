ghost use Rattle.std.specs.Prelude.{◌≡◌, ◌-◌, ◌≤◌, ◌<◌, ℕ, List, get_or, length};
ghost use Rattle.std.specs.List.{All};
ghost use Rattle.x12_segs.specs.Words.{IsNextPart, LiesIn, segs_from, rest_from};
ghost use Rattle.env_index.specs.Known.{AreMarks, AreNext};
ghost use Rattle.env_index.specs.Source.{GoesOnBehind};

use crate::known::known_behind;
use crate::source::PartSource;
use env_marks::{Mark, Marks};
use x12_segs::{Part, next_part};

/// The parts of a text from an offset on, by the marks of its pieces; where these say nothing, the text is read.
#[derive(Drop)]
pub(crate) struct MarkParts<'a, 'm> {
    text: &'a [u8],
    terminator: u8,
    at: usize,
    marks: &'m [Marks],
    piece: usize,
    known: &'m [Mark],
    ghost within: { at ≤ length text.now },
    ghost marked: { ∥ All (AreMarks text.now) marks.now ∥₁ },
    ghost next: { ∥ AreNext text.now terminator at known.now ∥₁ },
}

impl<'a, 'm> MarkParts<'a, 'm> {
    /// The parts from an offset after a terminator on; no piece before `piece` ends after it.
    pub(crate) fn new(
        text: &'a [u8],
        terminator: u8,
        at: usize,
        marks: &'m [Marks],
        piece: usize,
    ) -> Self
        requires within { at ≤ length text.now }
        requires behind { get_or text.now (at - 1) 0 ≡ terminator }
        requires marked { All (AreMarks text.now) marks.now }
        ensures text { result.text.now ≡ text.entry.now }
        ensures terminator { result.terminator ≡ terminator }
        ensures at { result.at ≡ at }
    {
        let piece = piece_at(marks, piece, at);
        MarkParts {
            text,
            terminator,
            at,
            marks,
            piece,
            known: known_in(marks, piece, terminator, at),
        }
    }

    /// The next part by its mark.
    fn next_known(&mut self) -> Part
        requires { 0 < length self.old.known.now }
        ensures within { LiesIn self.old.at (length self.old.text.now) result }
        ensures part { IsNextPart self.old.text.now self.old.terminator self.old.at result }
        ensures text { self.new.text.now ≡ self.old.text.now }
        ensures terminator { self.new.terminator ≡ self.old.terminator }
        ensures at { GoesOnBehind result self.new.at }
    {
        let mark = self.known[0];
        self.known = &self.known[1..];
        self.at = mark.end + 1;
        Part::Segment {
            start: mark.start,
            end: mark.end,
        }
    }

    /// The next part, read in the text.
    fn read_part(&mut self) -> Part
        ensures within { LiesIn self.old.at (length self.old.text.now) result }
        ensures part { IsNextPart self.old.text.now self.old.terminator self.old.at result }
        ensures text { self.new.text.now ≡ self.old.text.now }
        ensures terminator { self.new.terminator ≡ self.old.terminator }
        ensures at { GoesOnBehind result self.new.at }
    {
        let part = next_part(self.text, self.at, self.terminator);
        if let Part::Segment { end, .. } = part {
            self.at = end + 1;
            self.piece = piece_at(self.marks, self.piece, self.at);
            self.known = known_in(self.marks, self.piece, self.terminator, self.at);
        }
        part
    }
}

/// The first piece from one on that ends after an offset.
pub(crate) fn piece_at(marks: &[Marks], from: usize, at: usize) -> usize {
    let mut piece = from;
    while piece < marks.len() && marks[piece].end() <= at {
        piece += 1;
    }
    piece
}

/// The segments that the marks of a piece give after an offset.
fn known_in(marks: &[Marks], piece: usize, terminator: u8, at: usize) -> &[Mark]
    ensures { (text : List ℕ) → All (AreMarks text) marks.now → get_or text (at - 1) 0 ≡ terminator
        → AreNext text terminator at result.now }
{
    if piece < marks.len() {
        known_behind(&marks[piece], terminator, at)
    } else {
        &[]
    }
}

impl<'a, 'm> PartSource for MarkParts<'a, 'm> {
    ghost text = { λ p. p.text.now };

    ghost at = { λ p. p.at };

    ghost segs = { λ p. segs_from p.text.now p.terminator p.at };

    ghost rest = { λ p. rest_from p.text.now p.terminator p.at };

    fn take_part(&mut self) -> Part {
        if self.known.is_empty() {
            return self.read_part();
        }
        self.next_known()
    }
}
