ghost use Rattle.std.specs.Prelude.{◌≡◌, ◌<◌, ℕ, List, Ok, IfOk, IsErrOf, length};
ghost use Rattle.hub_kinds.specs.declared.limits.TheConstants.{LONGEST_TEXT};
ghost use Rattle.gather_command.specs.Members.{IsRead};
ghost use Rattle.gather_files.specs.declared.fault.GatherFault.TheVariants as gather;
ghost use Rattle.day_files.specs.Members.{IsGathered, IsLong};
ghost use Rattle.day_files.specs.declared.gathered.DayFault.TheVariants.{TooLong};

use crate::file::Content;
use gather_command::Outcome;
use gather_files::{GatherFault, Gathered, gather_file};
use hub_kinds::{Items, NoMemory, Text};
use std::alloc::Global;
use system_io::Reader;

/// How many bytes of a file are gathered at a time.
const WINDOW: usize = 1_048_576;

/// Why a file isn't gathered.
#[derive(Clone, Copy, Debug, PartialEq, Eq)]
pub enum DayFault {
    /// It has more than 4,294,967,295 bytes.
    TooLong,
    /// Memory was refused.
    Memory,
}

impl From<NoMemory> for DayFault {
    ghost use Rattle.std.specs.Prelude.{◌≡◌};
    ghost use Rattle.day_files.specs.declared.gathered.DayFault.TheVariants.{Memory};

    ghost from_gives = { λ _ fault. fault ≡ Memory };

    fn from(_error: NoMemory) -> DayFault {
        DayFault::Memory
    }
}

/// A file as it goes in by itself.
#[derive(Debug, Drop)]
pub struct GatheredFile {
    /// What became of it.
    pub outcome: Outcome,
    /// What of it goes in; nothing of a file that isn't taken.
    pub closed: Text,
}

fn of_gathering(fault: GatherFault) -> DayFault
    ensures { result ≡ TooLong → fault ≡ gather.TooLong }
{
    match fault {
        GatherFault::TooLong => DayFault::TooLong,
        GatherFault::Read | GatherFault::Output | GatherFault::NoMemory => DayFault::Memory,
    }
}

/// The bytes of a file as they go in.
fn gather_bytes(alloc: Global, bytes: &[u8]) -> Result<(Gathered, Vec<u8>), DayFault>
    ensures read { IfOk result (λ g. IsRead g.0 bytes.now g.1.items) }
    ensures long { IsErrOf result TooLong → LONGEST_TEXT < length bytes.now }
{
    let mut closed = Vec::new(alloc);
    let mut reader = Reader::new(bytes);
    match gather_file(alloc, &mut reader, &mut closed, WINDOW) {
        Ok(gathered) => Ok((gathered, closed)),
        Err(fault) => Err(of_gathering(fault)),
    }
}

/// Gathers a file by itself, by what was read of it. X12.5, interchange; that files are gathered is own. Errors: it has more than
/// 4,294,967,295 bytes; or out of memory.
pub fn gather(alloc: Global, content: &Content) -> Result<GatheredFile, DayFault>
    ensures gathered { IfOk result (λ g. IsGathered content.now g.outcome g.closed) }
    ensures long { IsErrOf result TooLong → IsLong content.now }
{
    match content {
        Content::Read(bytes) => {
            let (gathered, closed) = gather_bytes(alloc, bytes.as_slice())?;
            Ok(GatheredFile {
                outcome: Outcome::Read(gathered),
                closed: Items::from_vec(closed),
            })
        }
        Content::Changed => Ok(GatheredFile {
            outcome: Outcome::Changed,
            closed: Items::from_vec(Vec::new(alloc)),
        }),
        Content::NameNotUtf8 => Ok(GatheredFile {
            outcome: Outcome::NameNotUtf8,
            closed: Items::from_vec(Vec::new(alloc)),
        }),
    }
}
