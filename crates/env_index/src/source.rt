ghost use Rattle.std.specs.Prelude.{◌≡◌, ◌+◌, ◌≤◌, ℕ, List, length};
ghost use Rattle.x12_segs.specs.Words.{LiesIn, Seg, segs_from, rest_from};
ghost use Rattle.env_index.specs.Source.{TakesPart, GoesOnBehind};

use x12_segs::{Part, next_part};

/// Where the walk of an interchange takes its parts from, one after another.
pub(crate) trait PartSource {
    // the text that the parts are in, the offset after those that were taken, the segments to come and the rest
    ghost text: { Self → List ℕ };

    ghost at: { Self → ℕ };

    ghost segs: { Self → List Seg };

    ghost rest: { Self → Seg };

    /// The next part: a segment, or the rest where no segment follows.
    fn take_part(&mut self) -> Part
        ensures within { LiesIn (at self.old) (length (text self.old)) result }
        ensures part { TakesPart (text self.old) (segs self.old) (rest self.old) result (segs self.new) (rest self.new) }
        ensures text { text self.new ≡ text self.old }
        ensures at { GoesOnBehind result (at self.new) };
}

/// The parts of a text from an offset on.
#[derive(Drop)]
pub(crate) struct TextParts<'a> {
    text: &'a [u8],
    terminator: u8,
    at: usize,
    ghost within: { at ≤ length text.now },
}

impl<'a> TextParts<'a> {
    pub(crate) fn new(text: &'a [u8], terminator: u8, at: usize) -> Self
        requires { at ≤ length text.now }
        ensures text { result.text.now ≡ text.entry.now }
        ensures terminator { result.terminator ≡ terminator }
        ensures at { result.at ≡ at }
    {
        TextParts {
            text,
            terminator,
            at,
        }
    }
}

impl<'a> PartSource for TextParts<'a> {
    ghost text = { λ p. p.text.now };

    ghost at = { λ p. p.at };

    ghost segs = { λ p. segs_from p.text.now p.terminator p.at };

    ghost rest = { λ p. rest_from p.text.now p.terminator p.at };

    fn take_part(&mut self) -> Part {
        let part = next_part(self.text, self.at, self.terminator);
        if let Part::Segment { end, .. } = part {
            self.at = end + 1;
        }
        part
    }
}
