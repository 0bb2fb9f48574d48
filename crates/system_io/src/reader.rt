ghost use Rattle.std.specs.Prelude.{◌≡◌, None, if◌then◌else◌, IfOk, IfSome};
ghost use Rattle.system_io.specs.Reader.{IsAnswerOf};

use std::alloc::Global;
use std::io;
use std::io::{ErrorKind, Read};
use stream_read::{Source, SourceFault};

/// A reader of the system, as a source of bytes: those of its input, until it has failed. After that nothing more comes of it.
#[derive(Drop)]
pub struct Reader<I> {
    input: I,
    failed: bool,
    // how often it was interrupted in a row
    row: u32,
    // and at most
    longest: u32,
    // how many bytes it gave
    given: u64,
}

impl<I: Read> Reader<I> {
    ghost use Rattle.std.specs.Prelude.{◌≡◌};

    /// A reader of `input`, of which nothing was read.
    pub fn new(input: I) -> Reader<I>
        ensures remaining { ⟦<Reader<I> as Source>⟧.remaining result ≡ I.remaining input }
        ensures faults { ⟦<Reader<I> as Source>⟧.faults result ≡ 0 }
        ensures interruptions { ⟦<Reader<I> as Source>⟧.interruptions result ≡ 0 }
        ensures longest { ⟦<Reader<I> as Source>⟧.longest result ≡ 0 }
        ensures given { ⟦<Reader<I> as Source>⟧.given result ≡ 0 }
    {
        Reader {
            input,
            failed: false,
            row: 0,
            longest: 0,
            given: 0,
        }
    }
}

impl<I> Reader<I> {
    ghost use Rattle.std.specs.Prelude.{◌≡◌, ◌<◌, ◌⊎◌, IsErrOf};
    ghost use Rattle.stream_read.specs.Source.{given_after};
    ghost use Rattle.stream_read.specs.declared.source.SourceFault.TheVariants.{Interrupted};
    ghost use Rattle.system_io.specs.Reader.{IsCounted};

    /// Counts what a read answers, and gives it on.
    fn counted(&mut self, answer: Result<usize, SourceFault>) -> Result<usize, SourceFault>
        requires { self.old.row < 4294967295 ⊎ (IsErrOf answer Interrupted → ⊥) }
        ensures same { result ≡ answer }
        ensures input { self.new.input ≡ self.old.input }
        ensures counted { IsCounted answer self.old.failed self.old.row self.old.longest self.new.failed self.new.row self.new.longest }
        ensures given { self.new.given ≡ given_after answer self.old.given }
    {
        match answer {
            Ok(count) => {
                self.row = 0;
                self.given = self.given.saturating_add(count as u64);
            }
            Err(SourceFault::Interrupted) => {
                self.row += 1;
                self.longest = self.longest.max(self.row);
            }
            Err(SourceFault::Failed) => {
                self.failed = true;
                self.row = 0;
            }
        }
        answer
    }
}

impl<I: Read> Source for Reader<I> {
    ghost remaining = { λ r. if r.failed then None else I.remaining r.input };

    ghost faults = { λ r. if r.failed then 1 else 0 };

    ghost interruptions = { λ r. r.row };

    ghost longest = { λ r. r.longest };

    ghost given = { λ r. r.given };

    fn read(&mut self, buf: &mut [u8]) -> Result<usize, SourceFault> {
        if self.failed {
            return self.counted(Ok(0));
        }
        let answer = answer_of(self.input.read(buf), self.row);
        self.counted(answer)
    }
}

/// What a source answers for this answer of the system, after that many interruptions in a row.
fn answer_of(answer: io::Result<usize>, row: u32) -> Result<usize, SourceFault>
    ensures { IsAnswerOf answer row result }
{
    match answer {
        Ok(count) => Ok(count),
        Err(error) => {
            if error.kind() == ErrorKind::Interrupted && row < u32::MAX {
                Err(SourceFault::Interrupted)
            } else {
                Err(SourceFault::Failed)
            }
        }
    }
}

/// All bytes of a reader.
pub fn read_whole<I: Read + Drop>(alloc: Global, input: I) -> io::Result<Vec<u8>>
    ensures { IfOk result (λ text. IfSome (I.remaining input) (λ bytes. text.items ≡ bytes)) }
{
    let mut input = input;
    let mut text = Vec::new(alloc);
    input.read_to_end(&mut text)?;
    Ok(text)
}
