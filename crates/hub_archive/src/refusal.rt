ghost use Rattle.std.specs.Prelude.{◌≡◌, ◌++◌, ◌⊎◌, OnOk};
ghost use Rattle.std.specs.Io.KnownBytes.{Appends};
ghost use Rattle.hub_archive.specs.Refusal.{IsStatus, cause_status, line_of, lines_of, rest_of, status_of};

use hub_folder::{Failure, print_named};
use hub_kinds::{NoMemory, Text};
use program_frame::Reported;
use std::alloc::{AllocError, Global};
use std::io;
use std::io::Write;
use system_io::print_text;

/// Why nights of the hub at a path aren't archived.
#[derive(Clone, Copy, Debug, PartialEq, Eq)]
pub enum Cause {
    /// The nights don't continue.
    Breaches,
    /// The names of the nights aren't in their order.
    Order,
    /// The record of the last night that is to be archived can't be read.
    Record,
    /// The archive can't be written.
    Unwritten,
    /// The nights are archived, and their folders can't be moved.
    Unmoved,
}

/// Why nights aren't archived.
#[derive(Debug, Drop)]
pub enum Refusal {
    /// The hub fails as in a run.
    Hub(Failure),
    /// The path isn't what an archive needs.
    Named(Cause, Text),
    /// The nights of the hub at the path don't continue. The lines before the path say why.
    NotSound(Text, Text),
}

impl Cause {
    /// What a line says after the path that it names.
    fn rest(self) -> &'static str
        ensures { result.now ≡ rest_of self }
    {
        match self {
            Cause::Breaches => ": the nights don't go on, so none is archived\n",
            Cause::Order =>
                ": the names of its nights aren't in their order, so none is archived\n",
            Cause::Record => ": its record can't be read, so no night is archived\n",
            Cause::Unwritten => ": output: the nights can't be archived\n",
            Cause::Unmoved => ": output: archived nights can't be moved to archive\n",
        }
    }

    fn status(self) -> u8
        ensures status { result ≡ cause_status self }
        ensures values { (result ≡ 5) ⊎ (result ≡ 78) }
    {
        match self {
            Cause::Breaches | Cause::Order | Cause::Record => 78,
            Cause::Unwritten | Cause::Unmoved => 5,
        }
    }
}

impl Refusal {
    /// Memory was refused.
    pub(crate) fn memory() -> Refusal {
        Refusal::Hub(Failure::Memory)
    }

    /// Prints the refusal's lines, and gives the status that the program ends with, and whether they are printed. A fault of standard error
    /// changes no status.
    pub fn report<E: Write>(&self, alloc: Global, err: &mut E) -> Reported
        ensures status { result.status ≡ status_of self.now }
        ensures values { IsStatus result.status }
        ensures printed { OnOk result.printed (Appends (E.contents err.old) (E.contents err.new) (lines_of self.now)) }
    {
        match self {
            Refusal::Hub(failure) => failure.report(alloc, err),
            Refusal::Named(cause, path) => Reported {
                printed: print_line(alloc, path.as_slice(), *cause, err),
                status: cause.status(),
            },
            Refusal::NotSound(report, path) => Reported {
                printed: print_report(alloc, report.as_slice(), path.as_slice(), err),
                status: 78,
            },
        }
    }
}

/// Prints the line of `cause`, which names `path`.
fn print_line<E: Write>(alloc: Global, path: &[u8], cause: Cause, err: &mut E) -> io::Result<()>
    ensures { OnOk result (Appends (E.contents err.old) (E.contents err.new) (line_of cause path.now)) }
{
    print_named(alloc, path, cause.rest().as_bytes(), err)
}

/// Prints the lines `report` on the nights of the hub at `path`, and that they don't continue.
fn print_report<E: Write>(alloc: Global, report: &[u8], path: &[u8], err: &mut E) -> io::Result<()>
    ensures { OnOk result (Appends (E.contents err.old) (E.contents err.new) (report.now ++ line_of Cause.Breaches path.now)) }
{
    print_text(report, err)?;
    print_line(alloc, path, Cause::Breaches, err)
}

impl From<Failure> for Refusal {
    ghost use Rattle.std.specs.Prelude.{◌≡◌};
    ghost use Rattle.hub_archive.specs.declared.refusal.Refusal.TheVariants.{Hub};

    ghost from_gives = { λ failure refusal. refusal ≡ Hub failure };

    fn from(failure: Failure) -> Refusal {
        Refusal::Hub(failure)
    }
}

impl From<NoMemory> for Refusal {
    ghost use Rattle.std.specs.Prelude.{◌≡◌};
    ghost use Rattle.hub_archive.specs.declared.refusal.Refusal.TheVariants.{Hub};
    ghost use Rattle.hub_folder.specs.declared.failure.Failure.TheVariants.{Memory};

    ghost from_gives = { λ _ refusal. refusal ≡ Hub Memory };

    fn from(_error: NoMemory) -> Refusal {
        Refusal::Hub(Failure::Memory)
    }
}

impl From<AllocError> for Refusal {
    ghost use Rattle.std.specs.Prelude.{◌≡◌};
    ghost use Rattle.hub_archive.specs.declared.refusal.Refusal.TheVariants.{Hub};
    ghost use Rattle.hub_folder.specs.declared.failure.Failure.TheVariants.{Memory};

    ghost from_gives = { λ _ refusal. refusal ≡ Hub Memory };

    fn from(_error: AllocError) -> Refusal {
        Refusal::Hub(Failure::Memory)
    }
}
