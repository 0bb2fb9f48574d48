ghost use Rattle.std.specs.Prelude.{◌≡◌, ◌++◌, [], OnOk, codes, option_map};
ghost use Rattle.night_page.specs.Record as parts;
ghost use Rattle.night_page.specs.Tags.{tagged};

use crate::tags::{append_fixed, append_tagged};
use crate::title::moment_words;
use hub_kinds::{NoMemory, Text};
use std::alloc::Global;

/// What a page shows of a night's record.
#[derive(Debug, Drop)]
pub struct RecordShown {
    /// The SHA-256 of the record, in hexadecimal digits.
    pub sum: Text,
    /// What the clock of the host said, CCYYMMDDHHMM; none if the file is no record.
    pub clock: Option<Text>,
}

fn append_moment(alloc: Global, out: &mut Vec<u8>, clock: &[u8]) -> Result<(), NoMemory>
    ensures { OnOk result (out.new.items ≡ out.old.items
        ++ tagged (codes "; clock of the host ") (parts.moment_words clock.now) []) }
{
    let words = moment_words(alloc, clock)?;
    append_tagged(alloc, out, b"; clock of the host ", words.as_slice(), b"")
}

fn append_clock(alloc: Global, out: &mut Vec<u8>, clock: &Option<Text>) -> Result<(), NoMemory>
    ensures { OnOk result (out.new.items ≡ out.old.items ++ parts.clock_part clock.now) }
{
    match clock {
        None => append_fixed(out, b"; night.toml isn't a record that a hub writes"),
        Some(clock) => append_moment(alloc, out, clock.as_slice()),
    }
}

fn append_sum(alloc: Global, out: &mut Vec<u8>, sum: &Text) -> Result<(), NoMemory>
    ensures { OnOk result (out.new.items ≡ out.old.items ++ tagged (codes "<footer>\n<p>Record ") sum.now []) }
{
    append_tagged(alloc, out, b"<footer>\n<p>Record ", sum.as_slice(), b"")
}

fn append_shown(alloc: Global, out: &mut Vec<u8>, shown: &RecordShown) -> Result<(), NoMemory>
    ensures { OnOk result (out.new.items ≡ out.old.items ++ parts.shown_part shown.now) }
{
    append_sum(alloc, out, &shown.sum)?;
    append_clock(alloc, out, &shown.clock)?;
    append_fixed(out, b"</p>\n</footer>\n")
}

/// Appends the sum of a night's record, and what the clock of the host said, if the night has a record.
pub(crate) fn append_record(
    alloc: Global,
    out: &mut Vec<u8>,
    shown: Option<&RecordShown>,
) -> Result<(), NoMemory>
    ensures { OnOk result (out.new.items ≡ out.old.items
        ++ parts.record_part (option_map (λ r. r.now) shown.entry)) }
{
    match shown {
        None => Ok(()),
        Some(shown) => append_shown(alloc, out, shown),
    }
}
