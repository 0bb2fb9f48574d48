ghost use Rattle.std.specs.Prelude.{◌≡◌, ◌≢◌, ◌≤◌, ◌⊎◌, OnOk};
ghost use Rattle.std.specs.Io.KnownBytes.{Appends};
ghost use Rattle.night_report.specs.Clean.{last_of, lines_of};
ghost use Rattle.x12_segs.specs.Words.{parts};
ghost use Rattle.night_command.specs.Outcome.{last_line, status_of, text_of};

use crate::failure::Failure;
use hub_run::{Night, is_clean};
use std::io;
use std::io::Write;
use x12_bytes::Delims;
use x12_segs::{Parts, components};

/// What a run that didn't fail has to report.
#[derive(Drop)]
pub enum Outcome {
    /// A text that was asked for: help, or the version.
    Shown(String),
    /// A night, whose files are written.
    Ran(Night),
}

/// Prints the outcome on standard output, and nothing else, where the writer declares what it has. Gives its status, or that of a
/// failure of standard output.
pub fn finish<O: Write, E: Write>(outcome: &Outcome, out: &mut O, err: &mut E) -> u8
    ensures status { (result ≡ status_of outcome.now) ⊎ (result ≡ 5) }
    ensures printed { result ≢ 5 → Appends (O.contents out.old) (O.contents out.new) (text_of outcome.now) }
    ensures quiet { result ≢ 5 → err.new ≡ err.old }
{
    if print(outcome, out).is_err() {
        return Failure::Stdout.report(err);
    }
    status(outcome)
}

/// Writes what is to be printed, and sees that it is out.
fn print<O: Write>(outcome: &Outcome, out: &mut O) -> io::Result<()>
    ensures { OnOk result (Appends (O.contents out.old) (O.contents out.new) (text_of outcome.now)) }
{
    match outcome {
        Outcome::Shown(text) => out.write_all(text.as_bytes())?,
        Outcome::Ran(night) => print_last_line(night.report.as_slice(), out)?,
    }
    out.flush()
}

fn print_last_line<O: Write>(report: &[u8], out: &mut O) -> io::Result<()>
    ensures { OnOk result (Appends (O.contents out.old) (O.contents out.new) (last_line report.now)) }
{
    out.write_all(last_line(report))?;
    out.write_all(b"\n")
}

/// The lines of a text, and what comes after the last of them.
fn lines_of(text: &[u8]) -> Parts<'_>
    ensures { result ≡ parts 10 text.entry.now }
{
    components(
        text,
        Delims {
            element: b'\n',
            component: b'\n',
            repetition: None,
            terminator: b'\n',
        },
    )
}

/// The last line of a report, without its end.
fn last_line(report: &[u8]) -> &[u8]
    ensures { result.now ≡ last_of (lines_of report.now) }
{
    let mut parts = lines_of(report);
    let mut line = parts.next_or_empty();
    let mut last: &[u8] = b"";
    for next in parts {
        last = line;
        line = next;
    }
    last
}

/// The status: 0 where the night was clean, otherwise 1.
fn status(outcome: &Outcome) -> u8
    ensures value { result ≡ status_of outcome.now }
    ensures bound { result ≤ 1 }
{
    match outcome {
        Outcome::Ran(night) if !is_clean(night.report.as_slice()) => 1,
        _ => 0,
    }
}
