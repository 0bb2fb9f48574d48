ghost use Rattle.std.specs.Prelude.{◌≡◌, OnOk};
ghost use Rattle.std.specs.Io.KnownBytes.{Appends};
ghost use Rattle.track_command.specs.Failure.{lead_of, line_of, line_text, rest_of, status_of, there_text, there_words};

use hub_kinds::{NoMemory, Text};
use night_command::Failure;
use std::alloc::AllocError;
use std::io;
use std::io::Write;

/// Why a run failed.
#[derive(Debug, Drop)]
pub enum TrackFailure<'a> {
    /// As a run of `nighthub` fails, but for its arguments.
    Night(Failure<'a>),
    /// The arguments are not those of the command line, by this mistake.
    Usage(Text),
    /// A file of this path is there already: the one that is to be written, or the one that it is written as at first.
    There(Text),
}

impl<'a> TrackFailure<'a> {
    /// Prints the failure's line, as `print` does, and gives the status that the program ends with. A fault of standard error is
    /// passed over.
    pub fn report<E: Write>(&self, err: &mut E) -> u8
        ensures { result ≡ status_of self.now }
    {
        let _ = self.print(err);
        let _ = err.flush();
        self.status()
    }

    /// Writes the line that says what failed (own): `nighthub_track: ` and what it is, with its name and its number, as `nighthub` says
    /// it.
    pub fn print<E: Write>(&self, err: &mut E) -> io::Result<()>
        ensures { OnOk result (Appends (E.contents err.old) (E.contents err.new) (line_of self.now)) }
    {
        err.write_all(self.lead().as_bytes())?;
        self.print_rest(err)
    }

    fn lead(&self) -> &'static str
        ensures { result.now ≡ lead_of self.now }
    {
        match self {
            TrackFailure::Night(_) => "nighthub_track: ",
            TrackFailure::Usage(_) => "nighthub_track: usage: ",
            TrackFailure::There(_) => "nighthub_track: output ",
        }
    }

    fn print_rest<E: Write>(&self, err: &mut E) -> io::Result<()>
        ensures { OnOk result (Appends (E.contents err.old) (E.contents err.new) (rest_of self.now)) }
    {
        match self {
            TrackFailure::Night(failure) => failure.print_cause(err),
            TrackFailure::Usage(mistake) => print_line(mistake.as_slice(), err),
            TrackFailure::There(path) => print_there(path.as_slice(), err),
        }
    }

    fn status(&self) -> u8
        ensures { result ≡ status_of self.now }
    {
        match self {
            TrackFailure::Night(failure) => failure.status(),
            TrackFailure::Usage(_) => 2,
            TrackFailure::There(_) => 5,
        }
    }
}

fn print_line<E: Write>(text: &[u8], err: &mut E) -> io::Result<()>
    ensures { OnOk result (Appends (E.contents err.old) (E.contents err.new) (line_text text.now)) }
{
    err.write_all(text)?;
    err.write_all(b"\n")
}

fn print_there<E: Write>(path: &[u8], err: &mut E) -> io::Result<()>
    ensures { OnOk result (Appends (E.contents err.old) (E.contents err.new) (there_text path.now)) }
{
    err.write_all(path)?;
    err.write_all(there_words().as_bytes())
}

fn there_words() -> &'static str
    ensures { result.now ≡ there_words }
{
    " is there already\n"
}

impl<'a> From<NoMemory> for TrackFailure<'a> {
    ghost use Rattle.std.specs.Prelude.{◌≡◌};
    ghost use Rattle.night_command.specs.declared.failure.Failure.TheVariants.{Memory};
    ghost use Rattle.track_command.specs.declared.failure.TrackFailure.TheVariants.{Night};

    ghost from_gives = { λ _ failure. failure ≡ Night Memory };

    fn from(_error: NoMemory) -> TrackFailure<'a> {
        TrackFailure::Night(Failure::Memory)
    }
}

impl<'a> From<AllocError> for TrackFailure<'a> {
    ghost use Rattle.std.specs.Prelude.{◌≡◌};
    ghost use Rattle.night_command.specs.declared.failure.Failure.TheVariants.{Memory};
    ghost use Rattle.track_command.specs.declared.failure.TrackFailure.TheVariants.{Night};

    ghost from_gives = { λ _ failure. failure ≡ Night Memory };

    fn from(_error: AllocError) -> TrackFailure<'a> {
        TrackFailure::Night(Failure::Memory)
    }
}
