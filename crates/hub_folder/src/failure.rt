ghost use Rattle.std.specs.Prelude.{◌≡◌, ◌++◌, OnOk, codes, option_map};
ghost use Rattle.std.specs.Io.KnownBytes.{Appends};
ghost use Rattle.file_names.specs.Shown.{shown};
ghost use Rattle.hub_folder.specs.Failure.{IsStatus, lines_of, path_in, report_in, rest_of, status_of};

use file_names::print_shown;
use hub_kinds::{NoMemory, Text};
use program_frame::Reported;
use std::alloc::{AllocError, Global};
use std::io;
use std::io::Write;
use system_io::print_text;

/// Why a run failed. The paths are those of the hub, of one of its files, or of the input.
#[derive(Debug, Drop)]
pub enum Failure {
    /// The folder has no hub.toml that can be read.
    NoHub(Text),
    /// The folder is a hub already, or hub.toml or nights can't be made in it.
    IsHub(Text),
    /// Another run has the hub.
    Busy(Text),
    /// The system refuses the hub's lock.
    Lock(Text),
    /// The folder of nights can't be listed, or has a name that isn't UTF-8.
    Nights(Text),
    /// A file can't be read.
    Unread(Text),
    /// The setup, a guide or the first counters are refused.
    Refused(Text),
    /// The setup and the guides are refused together.
    Setup(Text),
    /// With the night that was made the nights don't go on. These lines say why.
    NotSound(Text),
    /// Each file is set aside. These lines say why.
    AllAside(Text),
    /// A file of the last night isn't what a night leaves.
    Chain(Text),
    /// The last night can't be moved.
    Given(Text),
    /// The night at this path was the last, and isn't there.
    Gone(Text),
    /// The nights aren't what their records say. These lines say why.
    Records(Text),
    /// The night is kept, and the hub's file that names its last night can't be written.
    Noted(Text),
    /// There is no night to give up.
    NoNight,
    /// The hub has 999,999 nights.
    TooMany,
    /// The record of the night can't be written.
    Record,
    /// The input has over 4,294,967,295 bytes.
    InputTooLong,
    /// The clock can't be read.
    Clock,
    /// A file of the night can't be written, or its folder can't be named.
    Keep,
    /// Standard output failed.
    Stdout,
    /// The system refused a thread.
    Thread,
    /// Memory was refused.
    Memory,
}

impl Failure {
    /// Prints the failure's lines, and gives the status that the program ends with, and whether they are printed. A fault of standard error
    /// changes no status.
    pub fn report<E: Write>(&self, alloc: Global, err: &mut E) -> Reported
        ensures status { result.status ≡ status_of self.now }
        ensures values { IsStatus result.status }
        ensures printed { OnOk result.printed (Appends (E.contents err.old) (E.contents err.new) (lines_of self.now)) }
    {
        Reported {
            printed: self.print(alloc, err),
            status: self.status(),
        }
    }

    fn print<E: Write>(&self, alloc: Global, err: &mut E) -> io::Result<()>
        ensures { OnOk result (Appends (E.contents err.old) (E.contents err.new) (lines_of self.now)) }
    {
        print_text(self.report_in(), err)?;
        match self.path() {
            None => print_text(self.rest().as_bytes(), err),
            Some(path) => print_named(alloc, path, self.rest().as_bytes(), err),
        }
    }

    /// The lines of a check, or on the files, that come before.
    fn report_in(&self) -> &[u8]
        ensures { result.now ≡ report_in self.now }
    {
        match self {
            Failure::NotSound(report) | Failure::AllAside(report) | Failure::Records(report) => {
                report.as_slice()
            }
            _ => b"",
        }
    }

    /// The path that the failure names.
    fn path(&self) -> Option<&[u8]>
        ensures { option_map (λ path. path.now) result ≡ path_in self.now }
    {
        match self {
            Failure::NoHub(path)
            | Failure::IsHub(path)
            | Failure::Busy(path)
            | Failure::Lock(path)
            | Failure::Nights(path)
            | Failure::Unread(path)
            | Failure::Refused(path)
            | Failure::Setup(path)
            | Failure::Chain(path)
            | Failure::Given(path)
            | Failure::Gone(path)
            | Failure::Noted(path) => Some(path.as_slice()),
            _ => None,
        }
    }

    /// What the line says after the path, or all of it if it names none.
    fn rest(&self) -> &'static str
        ensures { result.now ≡ rest_of self.now }
    {
        match self {
            Failure::NoHub(_) => " isn't a hub: it has no hub.toml that can be read\n",
            Failure::IsHub(_) => " is a hub already, or hub.toml and nights can't be made in it\n",
            Failure::Busy(_) => ": another run has it\n",
            Failure::Lock(_) => ": its lock can't be had\n",
            Failure::Nights(_) =>
                ": its folder nights can't be listed, or has a name that isn't UTF-8\n",
            Failure::Unread(_) => " can't be read\n",
            Failure::Refused(_) => " is refused: nighthub_check says why\n",
            Failure::Setup(_) =>
                ": its setup and its guides are refused together: nighthub_check says why\n",
            Failure::NotSound(_) =>
                "nighthub_day: with this night the nights don't go on, so it isn't kept\n",
            Failure::AllAside(_) => "nighthub_day: each file is set aside, so no night is made\n",
            Failure::Chain(_) => " isn't what a night leaves\n",
            Failure::Given(_) => " can't be moved to given-up\n",
            Failure::Gone(_) => " was the last night, and isn't there\n",
            Failure::Records(_) =>
                "nighthub_day: the nights aren't what their records say, so no night is made\n",
            Failure::Noted(_) => ": its file last can't be written\n",
            Failure::NoNight => "nighthub_day: there is no night to give up\n",
            Failure::TooMany => "nighthub_day: a hub has no more than 999999 nights\n",
            Failure::Record => "nighthub_day: the name of a guide file can't be written down\n",
            Failure::InputTooLong => "nighthub_day: input: it has more than 4294967295 bytes\n",
            Failure::Clock => "nighthub_day: input: the clock can't be read\n",
            Failure::Keep => "nighthub_day: output: the night can't be kept\n",
            Failure::Stdout => "nighthub_day: output stdout\n",
            Failure::Thread => "nighthub_day: thread\n",
            Failure::Memory => "nighthub_day: memory\n",
        }
    }

    fn status(&self) -> u8
        ensures status { result ≡ status_of self.now }
        ensures values { IsStatus result }
    {
        match self {
            Failure::Refused(_) | Failure::Setup(_) => 3,
            Failure::Nights(_) | Failure::Unread(_) | Failure::InputTooLong | Failure::Clock => 4,
            Failure::Given(_) | Failure::Noted(_) | Failure::Keep | Failure::Stdout => 5,
            Failure::Thread | Failure::Memory => 6,
            Failure::Busy(_) => 75,
            Failure::NoHub(_)
            | Failure::IsHub(_)
            | Failure::Lock(_)
            | Failure::NotSound(_)
            | Failure::AllAside(_)
            | Failure::Chain(_)
            | Failure::Gone(_)
            | Failure::Records(_)
            | Failure::NoNight
            | Failure::TooMany
            | Failure::Record => 78,
        }
    }
}

/// Prints a line of the program that names `path`, and says `rest` after it.
pub fn print_named<E: Write>(alloc: Global, path: &[u8], rest: &[u8], err: &mut E) -> io::Result<()>
    ensures { OnOk result (Appends (E.contents err.old) (E.contents err.new)
        (codes "nighthub_day: " ++ (shown path.now ++ rest.now))) }
{
    print_text(b"nighthub_day: ", err)?;
    print_path(alloc, path, rest, err)
}

/// Prints `path` as it is shown, and the rest of its line.
fn print_path<E: Write>(alloc: Global, path: &[u8], rest: &[u8], err: &mut E) -> io::Result<()>
    ensures { OnOk result (Appends (E.contents err.old) (E.contents err.new) (shown path.now ++ rest.now)) }
{
    print_shown(alloc, path, err)?;
    print_text(rest, err)
}

impl From<NoMemory> for Failure {
    ghost use Rattle.std.specs.Prelude.{◌≡◌};
    ghost use Rattle.hub_folder.specs.declared.failure.Failure.TheVariants.{Memory};

    ghost from_gives = { λ _ failure. failure ≡ Memory };

    fn from(_error: NoMemory) -> Failure {
        Failure::Memory
    }
}

impl From<AllocError> for Failure {
    ghost use Rattle.std.specs.Prelude.{◌≡◌};
    ghost use Rattle.hub_folder.specs.declared.failure.Failure.TheVariants.{Memory};

    ghost from_gives = { λ _ failure. failure ≡ Memory };

    fn from(_error: AllocError) -> Failure {
        Failure::Memory
    }
}
