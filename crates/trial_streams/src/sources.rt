//! Sources over a text in memory: a plain one, one that is interrupted, and one that fails.
ghost use Rattle.std.specs.Prelude.{◌≡◌, ◌+◌, ◌≤◌, ◌<◌, ◌++◌, [], length, min, take, Some};

use stream_read::{Source, SourceFault};

/// A text in memory.
#[derive(Drop)]
pub struct Memory<'a> {
    left: &'a [u8],
    given: u64,
}

impl<'a> Memory<'a> {
    pub fn new(left: &'a [u8]) -> Self {
        Memory { left, given: 0 }
    }

    /// Gives as many bytes as there is room for, at most this many.
    fn give(&mut self, buf: &mut [u8], most: usize) -> usize
        requires { 0 < most }
        ensures bound { result ≤ length buf.new }
        ensures bytes { self.old.left.now ≡ take result buf.new ++ self.new.left.now }
        ensures end { result ≡ 0 → 0 < length buf.new → self.new.left.now ≡ [] }
        ensures given { self.new.given ≡ min 18446744073709551615 (self.old.given + result) }
    {
        let count = buf.len().min(self.left.len()).min(most);
        buf[..count].copy_from_slice(&self.left[..count]);
        self.left = &self.left[count..];
        self.given = self.given.saturating_add(count as u64);
        count
    }
}

impl<'a> Source for Memory<'a> {
    ghost remaining = { λ m. Some m.left.now };

    ghost faults = { λ m. 0 };

    ghost interruptions = { λ m. 0 };

    ghost longest = { λ m. 0 };

    ghost given = { λ m. m.given };

    fn read(&mut self, buf: &mut [u8]) -> Result<usize, SourceFault> {
        Ok(self.give(buf, usize::MAX))
    }
}

/// It is interrupted so often before it gives bytes.
#[derive(Drop)]
pub struct Interrupted<'a> {
    memory: Memory<'a>,
    // before the next byte
    often: u32,
    // before each byte after it, which comes alone
    later: u32,
    // how often it was, in a row
    row: u32,
    // and at most
    longest: u32,
}

impl<'a> Interrupted<'a> {
    pub fn new(text: &'a [u8], first: u32, later: u32) -> Self {
        Interrupted {
            memory: Memory::new(text),
            often: first,
            later,
            row: 0,
            longest: 0,
        }
    }
}

impl<'a> Source for Interrupted<'a> {
    ghost remaining = { λ s. Some s.memory.left.now };

    ghost faults = { λ s. 0 };

    ghost interruptions = { λ s. s.row };

    ghost longest = { λ s. s.longest };

    ghost given = { λ s. s.memory.given };

    fn read(&mut self, buf: &mut [u8]) -> Result<usize, SourceFault> {
        if self.row < self.often {
            self.row += 1;
            self.longest = self.longest.max(self.row);
            return Err(SourceFault::Interrupted);
        }
        self.row = 0;
        self.often = self.later;
        Ok(self.memory.give(buf, 1))
    }
}

/// It fails once, at one of its reads, and continues then.
#[derive(Drop)]
pub struct Failing<'a> {
    memory: Memory<'a>,
    // how many reads are left before the one that fails
    reads: u32,
    faults: u32,
}

impl<'a> Failing<'a> {
    /// It fails after this many reads.
    pub fn new(text: &'a [u8], reads: u32) -> Self {
        Failing {
            memory: Memory::new(text),
            reads,
            faults: 0,
        }
    }
}

impl<'a> Source for Failing<'a> {
    ghost remaining = { λ s. Some s.memory.left.now };

    ghost faults = { λ s. s.faults };

    ghost interruptions = { λ s. 0 };

    ghost longest = { λ s. 0 };

    ghost given = { λ s. s.memory.given };

    fn read(&mut self, buf: &mut [u8]) -> Result<usize, SourceFault> {
        if self.reads == 0 && self.faults == 0 {
            self.faults = 1;
            return Err(SourceFault::Failed);
        }
        self.reads = self.reads.saturating_sub(1);
        Ok(self.memory.give(buf, usize::MAX))
    }
}
