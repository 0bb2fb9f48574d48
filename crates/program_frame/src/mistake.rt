ghost use Rattle.std.specs.Prelude.{◌≡◌, ◌⊎◌, ◌++◌, OnOk, codes};
ghost use Rattle.std.specs.Io.KnownBytes.{Appends};
ghost use Rattle.program_frame.specs.Mistake.{IsUsage, mistake_line, mistake_status, usage_rest};

use crate::ending::{Reported, print_named};
use hub_kinds::{NoMemory, Text};
use std::alloc::AllocError;
use std::io;
use std::io::Write;
use system_io::print_text;

/// Why a program's arguments ask for nothing.
#[derive(Debug, Drop)]
pub enum Mistake {
    /// The arguments are wrong, as this text says.
    Usage(Text),
    /// Memory was refused.
    Memory,
}

impl Mistake {
    /// Prints the mistake's line after the name `program`, and gives the status that the program ends with, and whether the line is
    /// printed. A fault of standard error changes no status.
    pub fn report<E: Write>(&self, program: &str, err: &mut E) -> Reported
        ensures status { result.status ≡ mistake_status self.now }
        ensures values { (result.status ≡ 2) ⊎ (result.status ≡ 6) }
        ensures usage { result.status ≡ 2 → IsUsage self.now }
        ensures printed { OnOk result.printed (Appends (E.contents err.old) (E.contents err.new) (mistake_line program.now self.now)) }
    {
        match self {
            Mistake::Usage(text) => Reported {
                printed: print_usage(program, text.as_slice(), err),
                status: 2,
            },
            Mistake::Memory => Reported {
                printed: print_named(program, b": memory\n", err),
                status: 6,
            },
        }
    }
}

fn print_usage<E: Write>(program: &str, text: &[u8], err: &mut E) -> io::Result<()>
    ensures { OnOk result (Appends (E.contents err.old) (E.contents err.new) (program.now ++ (codes ": usage: " ++ usage_rest text.now))) }
{
    print_text(program.as_bytes(), err)?;
    print_after_name(text, err)
}

fn print_after_name<E: Write>(text: &[u8], err: &mut E) -> io::Result<()>
    ensures { OnOk result (Appends (E.contents err.old) (E.contents err.new) (codes ": usage: " ++ usage_rest text.now)) }
{
    print_text(b": usage: ", err)?;
    print_rest(text, err)
}

fn print_rest<E: Write>(text: &[u8], err: &mut E) -> io::Result<()>
    ensures { OnOk result (Appends (E.contents err.old) (E.contents err.new) (usage_rest text.now)) }
{
    print_text(text, err)?;
    print_text(b"; see --help\n", err)
}

impl From<AllocError> for Mistake {
    ghost use Rattle.std.specs.Prelude.{◌≡◌};
    ghost use Rattle.program_frame.specs.declared.mistake.Mistake.TheVariants.{Memory};

    ghost from_gives = { λ _ mistake. mistake ≡ Memory };

    fn from(_error: AllocError) -> Mistake {
        Mistake::Memory
    }
}

impl From<NoMemory> for Mistake {
    ghost use Rattle.std.specs.Prelude.{◌≡◌};
    ghost use Rattle.program_frame.specs.declared.mistake.Mistake.TheVariants.{Memory};

    ghost from_gives = { λ _ mistake. mistake ≡ Memory };

    fn from(_error: NoMemory) -> Mistake {
        Mistake::Memory
    }
}
