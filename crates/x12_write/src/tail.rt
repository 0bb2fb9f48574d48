ghost use Rattle.std.specs.Prelude.{◌≡◌, ◌≤◌, ℕ, List, drop, length, replicate, take};

use itoa::write_digits;
use std::marker::Model;

/// How many bytes a tail has at most.
const MOST_BYTES: usize = 64;

/// The end of a segment, written from its last byte to its first, so that it goes out in one piece. Contracts see it as the text
/// that it is so far.
#[derive(Drop)]
pub(crate) struct SegmentTail {
    bytes: [u8; MOST_BYTES],
    start: usize,
}

impl Model for SegmentTail {
    ghost Value = { List ℕ };

    ghost view = { λ t. drop t.start t.bytes };

    // What isn't written yet are zeros, with which a number is filled.
    ghost invariant = { λ t. (t.start ≤ 64) × (take t.start t.bytes ≡ replicate t.start 48) };
}

impl SegmentTail {
    ghost use Rattle.std.specs.Prelude.{◌≡◌, ◌+◌, ◌<◌, ◌++◌, [], ◌∷◌};
    ghost use Rattle.x12_write.specs.Number.{padded_number};

    pub(crate) fn new() -> SegmentTail
        ensures { result ≡ [] }
    {
        SegmentTail {
            bytes: [b'0'; MOST_BYTES],
            start: MOST_BYTES,
        }
    }

    /// Writes a byte before what is there.
    pub(crate) fn put(&mut self, byte: u8)
        requires { length self.old < 64 }
        ensures { self.new ≡ byte ∷ self.old }
    {
        self.start -= 1;
        self.bytes[self.start] = byte;
    }

    /// Writes a number in at least that many digits before what is there.
    pub(crate) fn put_number(&mut self, number: u64, least: usize)
        requires room { length self.old + 20 ≤ 64 }
        requires least { least ≤ 20 }
        ensures text { self.new ≡ padded_number least number ++ self.old }
        ensures room { length self.new ≤ length self.old + 20 }
    {
        let end = self.start;
        let start = write_digits(number, &mut self.bytes, end);
        self.start = start.min(end - least);
    }

    /// The text.
    pub(crate) fn bytes(&self) -> &[u8]
        ensures { result.now ≡ self.now }
    {
        &self.bytes[self.start..]
    }
}
