ghost use Rattle.std.specs.Prelude.{◌≡◌, ◌++◌, ◌⊎◌, OnOk};
ghost use Rattle.std.specs.Io.KnownBytes.{Appends};
ghost use Rattle.hub_adopt.specs.Refusal.{IsStatus, cause_status, line_of, lines_of, rest_of, status_of};

use hub_folder::{Failure, print_named};
use hub_kinds::{NoMemory, Text};
use program_frame::Reported;
use std::alloc::{AllocError, Global};
use std::io;
use std::io::Write;
use system_io::print_text;

/// Why a path isn't what an adoption needs.
#[derive(Clone, Copy, Debug, PartialEq, Eq)]
pub enum Cause {
    /// The folder of old nights can't be listed, or has a name that isn't UTF-8.
    Unlisted,
    /// The folder of old nights has no night.
    NoNight,
    /// A name in the folder of old nights isn't that of a night that is done.
    NotDone,
    /// The old nights don't continue.
    Breaches,
    /// The night that is made again doesn't give this file of the old one, or gives another one.
    Differs,
    /// A night of the hub isn't the old night in its place.
    Other,
}

/// Why an old night isn't adopted.
#[derive(Debug, Drop)]
pub enum Refusal {
    /// The hub, or a night that is made, fails as in a run.
    Hub(Failure),
    /// The path isn't what an adoption needs.
    Named(Cause, Text),
    /// The nights of the folder at the path don't continue. The lines before the path say why.
    NotSound(Text, Text),
}

impl Cause {
    /// What a line says after the path that it names.
    fn rest(self) -> &'static str
        ensures { result.now ≡ rest_of self }
    {
        match self {
            Cause::Unlisted => " can't be listed, or has a name that isn't UTF-8\n",
            Cause::NoNight => " has no night\n",
            Cause::NotDone => " isn't a night that is done\n",
            Cause::Breaches => ": its nights don't go on, so no night is adopted\n",
            Cause::Differs =>
                " isn't what the night gives by its from/, so the night isn't adopted\n",
            Cause::Other => " isn't the old night in its place, so no night is adopted\n",
        }
    }

    fn status(self) -> u8
        ensures status { result ≡ cause_status self }
        ensures values { (result ≡ 4) ⊎ (result ≡ 78) }
    {
        match self {
            Cause::Unlisted => 4,
            Cause::NoNight | Cause::NotDone | Cause::Breaches | Cause::Differs | Cause::Other => 78,
        }
    }
}

impl Refusal {
    /// Prints the refusal's lines, and gives the status that the program ends with, and whether they are printed. A fault of standard error
    /// changes no status.
    pub fn report<E: Write>(&self, alloc: Global, err: &mut E) -> Reported
        ensures status { result.status ≡ status_of self.now }
        ensures values { IsStatus result.status }
        ensures printed { OnOk result.printed (Appends (E.contents err.old) (E.contents err.new) (lines_of self.now)) }
    {
        match self {
            Refusal::Hub(failure) => failure.report(alloc, err),
            Refusal::Named(cause, path) => Reported {
                printed: print_line(alloc, path.as_slice(), *cause, err),
                status: cause.status(),
            },
            Refusal::NotSound(report, path) => Reported {
                printed: print_report(alloc, report.as_slice(), path.as_slice(), err),
                status: 78,
            },
        }
    }
}

/// Prints the line of `cause`, which names `path`.
fn print_line<E: Write>(alloc: Global, path: &[u8], cause: Cause, err: &mut E) -> io::Result<()>
    ensures { OnOk result (Appends (E.contents err.old) (E.contents err.new) (line_of cause path.now)) }
{
    print_named(alloc, path, cause.rest().as_bytes(), err)
}

/// Prints the lines `report` on the nights at `path`, and that they don't continue.
fn print_report<E: Write>(alloc: Global, report: &[u8], path: &[u8], err: &mut E) -> io::Result<()>
    ensures { OnOk result (Appends (E.contents err.old) (E.contents err.new) (report.now ++ line_of Cause.Breaches path.now)) }
{
    print_text(report, err)?;
    print_line(alloc, path, Cause::Breaches, err)
}

impl From<Failure> for Refusal {
    ghost use Rattle.std.specs.Prelude.{◌≡◌};
    ghost use Rattle.hub_adopt.specs.declared.refusal.Refusal.TheVariants.{Hub};

    ghost from_gives = { λ failure refusal. refusal ≡ Hub failure };

    fn from(failure: Failure) -> Refusal {
        Refusal::Hub(failure)
    }
}

impl From<NoMemory> for Refusal {
    ghost use Rattle.std.specs.Prelude.{◌≡◌};
    ghost use Rattle.hub_adopt.specs.declared.refusal.Refusal.TheVariants.{Hub};
    ghost use Rattle.hub_folder.specs.declared.failure.Failure.TheVariants.{Memory};

    ghost from_gives = { λ _ refusal. refusal ≡ Hub Memory };

    fn from(_error: NoMemory) -> Refusal {
        Refusal::Hub(Failure::Memory)
    }
}

impl From<AllocError> for Refusal {
    ghost use Rattle.std.specs.Prelude.{◌≡◌};
    ghost use Rattle.hub_adopt.specs.declared.refusal.Refusal.TheVariants.{Hub};
    ghost use Rattle.hub_folder.specs.declared.failure.Failure.TheVariants.{Memory};

    ghost from_gives = { λ _ refusal. refusal ≡ Hub Memory };

    fn from(_error: AllocError) -> Refusal {
        Refusal::Hub(Failure::Memory)
    }
}
