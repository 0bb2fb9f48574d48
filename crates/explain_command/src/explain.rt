ghost use Rattle.std.specs.Prelude.{◌≡◌, ◌≢◌, ◌⊎◌, true, false, [], IfOk, IfErr, IsErrAnd, IsOkAnd};
ghost use Rattle.std.specs.IoError.{error_kind};
ghost use Rattle.explain_command.specs.Failure.{IsMemoryOr, IsOfInput, IsOfText};
ghost use Rattle.explain_command.specs.Outcome.{IsExplanationOf, IsSaidOf};
ghost use Rattle.explain_command.specs.Ends.{cut_of, is_997};
ghost use Rattle.night_definition.specs.Header.{is_head};
ghost use Rattle.ack_read.specs.Words.{first_delims};

use crate::ends::{CutOff, cut_of, has_response, other_set};
use crate::failure::Failure;
use ack_lines::named_explanation;
use ack_read::{ReadFault, read_acknowledgments};
use guide_names::Names;
use std::alloc::Global;
use std::io;
use std::io::Read;
use system_io::read_whole;
use x12_bytes::{Delims, read_header};

/// The lines on acknowledgments, and where their text is cut off.
#[derive(Debug, Drop)]
pub struct Account {
    pub lines: Vec<u8>,
    pub cut: Option<CutOff>,
}

/// The lines on the acknowledgments of a file that was opened, which `opened` gives.
pub fn explained_file<I: Read + Drop>(
    alloc: Global,
    names: &Names,
    opened: io::Result<I>,
) -> Result<Account, Failure>
    ensures lines { IfOk result (λ a. IsOkAnd opened (λ input. IsExplanationOf names.now (I.remaining input) a.lines.items a.cut)) }
    ensures refused { IfOk opened (λ input. IfErr result (IsOfInput (I.remaining input))) }
    ensures closed { IfErr opened (λ error. IsErrAnd result (IsMemoryOr (error_kind error) Failure.Input)) }
    ensures either { IfErr opened (λ _. IfErr result (λ f. (f ≡ Failure.Memory) ⊎ (f ≡ Failure.Input))) }
{
    match opened {
        Ok(input) => explained(alloc, names, input),
        Err(fault) => Err(Failure::of_fault(fault, Failure::Input)),
    }
}

/// The lines on the acknowledgments that `input` gives.
pub fn explained<I: Read + Drop>(alloc: Global, names: &Names, input: I) -> Result<Account, Failure>
    ensures lines { IfOk result (λ a. IsExplanationOf names.now (I.remaining input) a.lines.items a.cut) }
    ensures refused { IfErr result (IsOfInput (I.remaining input)) }
{
    account_read(alloc, names, read_whole(alloc, input))
}

/// The lines on the acknowledgments of a text, which `read` gives.
fn account_read(alloc: Global, names: &Names, read: io::Result<Vec<u8>>) -> Result<Account, Failure>
    ensures said { IfOk result (λ a. IsOkAnd read (λ text. IsSaidOf names.now text.items a.lines.items a.cut)) }
    ensures refused { IfOk read (λ text. IfErr result (IsOfText text.items)) }
    ensures unread { IfErr read (λ error. IsErrAnd result (IsMemoryOr (error_kind error) Failure.Input)) }
    ensures either { IfErr read (λ _. IfErr result (λ f. (f ≡ Failure.Memory) ⊎ (f ≡ Failure.Input))) }
{
    match read {
        Ok(text) => account_of(alloc, names, text.as_slice()),
        Err(error) => Err(Failure::of_fault(error, Failure::Input)),
    }
}

/// The lines on the acknowledgments of a text.
fn account_of(alloc: Global, names: &Names, text: &[u8]) -> Result<Account, Failure>
    ensures said { IfOk result (λ a. IsSaidOf names.now text.now a.lines.items a.cut) }
    ensures refused { IfErr result (IsOfText text.now) }
{
    if text.is_empty() {
        return Ok(Account {
            lines: Vec::from_slice(alloc, b"no acknowledgments\n")?,
            cut: None,
        });
    }
    let Some(header) = read_header(text, 0) else {
        return Err(Failure::NoHeader);
    };
    let delims = header.delims();
    if has_response(text, delims) {
        return Err(Failure::Is997);
    }
    account_by(alloc, names, text, delims, cut_of(text, delims))
}

/// The lines on the acknowledgments of a text that begins with a header, is no 997, and is cut off at `cut`.
fn account_by(
    alloc: Global,
    names: &Names,
    text: &[u8],
    delims: Delims,
    cut: Option<CutOff>,
) -> Result<Account, Failure>
    requires delims { delims ≡ first_delims text.now }
    requires some { text.now ≢ [] }
    requires headed { is_head text.now 0 ≡ true }
    requires read { is_997 text.now ≡ false }
    requires ends { cut_of text.now ≡ cut }
    ensures said { IfOk result (λ a. IsSaidOf names.now text.now a.lines.items a.cut) }
    ensures refused { IfErr result (IsOfText text.now) }
{
    match read_acknowledgments(alloc, text) {
        Ok(found) => Ok(Account {
            lines: named_explanation(alloc, names, found)?,
            cut,
        }),
        Err(ReadFault::TellsNothing) if cut.is_some() => Ok(Account {
            lines: Vec::new(alloc),
            cut,
        }),
        Err(ReadFault::TellsNothing) => match other_set(text, delims) {
            Some(id) => Err(Failure::OtherSet(id)),
            None => Err(Failure::TellsNothing),
        },
        Err(fault) => Err(Failure::from(fault)),
    }
}
