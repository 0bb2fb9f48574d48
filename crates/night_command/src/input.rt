ghost use Rattle.std.specs.Prelude.{◌≡◌, Ok, IfErr, IfOk};
ghost use Rattle.night_command.specs.Failure.{IsOfInput};
ghost use Rattle.night_command.specs.Input.{IsInputOf, IsUnreadOf};

use crate::failure::Failure;
use hub_kinds::within_limit;
use std::fs::{Metadata, OpenFile};
use std::io;
use std::io::Read;
use stream_read::Source;
use system_io::Reader;

/// What was opened, as a source of bytes. A file of which the system says that it is longer than the limit isn't read.
pub fn source_of<'a, F: Read + OpenFile + Drop>(
    answer: io::Result<F>,
) -> Result<Reader<F>, Failure<'a>>
    ensures source { IfOk result (λ source. IsUnreadOf F.remaining answer
        (⟦<Reader<F> as Source>⟧.remaining source) (⟦<Reader<F> as Source>⟧.faults source) (⟦<Reader<F> as Source>⟧.given source)) }
    ensures err { IfErr result IsOfInput }
{
    input_of(said_of(answer))
}

/// A file that was opened, and what the system says of it.
fn said_of<F: OpenFile + Drop>(answer: io::Result<F>) -> io::Result<(F, Metadata)>
    ensures { IfOk result (λ said. answer ≡ Ok said.0) }
{
    let file = answer?;
    let said = file.metadata()?;
    Ok((file, said))
}

/// The input, by what the system said.
fn input_of<'a, F: Read + Drop>(opened: io::Result<(F, Metadata)>) -> Result<Reader<F>, Failure<'a>>
    ensures limit { IsInputOf opened result }
    ensures remaining { IfOk result (λ source. IfOk opened (λ said. ⟦<Reader<F> as Source>⟧.remaining source ≡ F.remaining said.0)) }
    ensures faults { IfOk result (λ source. ⟦<Reader<F> as Source>⟧.faults source ≡ 0) }
    ensures given { IfOk result (λ source. ⟦<Reader<F> as Source>⟧.given source ≡ 0) }
    ensures err { IfErr result IsOfInput }
{
    match opened {
        Ok((file, said)) => {
            if within_limit(said.len()) {
                Ok(Reader::new(file))
            } else {
                Err(Failure::InputTooLong)
            }
        }
        Err(error) => Err(Failure::of_fault(error, Failure::Input)),
    }
}
