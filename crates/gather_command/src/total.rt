ghost use Rattle.std.specs.Prelude.{◌≡◌, ◌++◌, ◌<◌, ◌≤◌, ◌+◌, false, OnOk};
ghost use Rattle.hub_kinds.specs.declared.limits.TheConstants.{LONGEST_TEXT};
ghost use Rattle.gather_command.specs.Members.{IfTaken, counted, files_line, is_cut, no_total, not_whole, total_line, total_with};

use crate::lines::{append, append_number};
use crate::outcome::{Outcome, taken_of};
use gather_files::End;
use hub_kinds::{LONGEST_TEXT, NoMemory};

/// How many files are taken, how many of these are cut off, how many are set aside, and how many bytes are gathered.
#[derive(Clone, Copy, Debug, PartialEq, Eq)]
pub struct Total {
    pub taken: u64,
    pub cut_off: u64,
    pub set_aside: u64,
    pub bytes: u64,
}

impl Total {
    ghost use Rattle.std.specs.Prelude.{◌≡◌, ◌==◌, ◌&&◌};

    /// Whether each file is taken, and is whole.
    pub fn is_clean(&self) -> bool
        ensures { result ≡ (self.now.cut_off == 0 && self.now.set_aside == 0) }
    {
        self.cut_off == 0 && self.set_aside == 0
    }
}

pub(crate) fn no_total() -> Total
    ensures { result ≡ no_total }
{
    Total {
        taken: 0,
        cut_off: 0,
        set_aside: 0,
        bytes: 0,
    }
}

fn is_cut(end: End) -> u64
    ensures { result ≡ is_cut end }
{
    match end {
        End::Whole | End::Mended => 0,
        End::CutOff | End::OtherSeparator(_) | End::CutInHeader => 1,
    }
}

/// Whether with this file more bytes are gathered than an input may have.
pub(crate) fn is_over(total: Total, outcome: Outcome) -> bool
    requires { total.bytes ≤ LONGEST_TEXT }
    ensures room { result ≡ false → IfTaken outcome (λ taken. total.bytes + taken.len ≤ LONGEST_TEXT) }
    ensures over { IfTaken outcome (λ taken. total.bytes + taken.len ≤ LONGEST_TEXT) → result ≡ false }
{
    match taken_of(outcome) {
        Some(taken) => taken.len > LONGEST_TEXT - total.bytes,
        None => false,
    }
}

/// The total with one file more, of which this many bytes go in.
pub(crate) fn with_file(total: Total, outcome: Outcome) -> Total
    requires files { total.taken + total.set_aside < 4611686018427387904 }
    requires cut { total.cut_off ≤ total.taken }
    requires room { IfTaken outcome (λ taken. total.bytes + taken.len ≤ LONGEST_TEXT) }
    requires bytes { total.bytes ≤ LONGEST_TEXT }
    ensures total { result ≡ total_with outcome total }
    ensures files { result.taken + result.set_aside ≡ total.taken + total.set_aside + 1 }
    ensures cut { result.cut_off ≤ result.taken }
    ensures bytes { result.bytes ≤ LONGEST_TEXT }
{
    match taken_of(outcome) {
        Some(taken) => Total {
            taken: total.taken + 1,
            cut_off: total.cut_off + is_cut(taken.end),
            set_aside: total.set_aside,
            bytes: total.bytes + taken.len,
        },
        None => Total {
            taken: total.taken,
            cut_off: total.cut_off,
            set_aside: total.set_aside + 1,
            bytes: total.bytes,
        },
    }
}

/// Writes the line of the total.
pub(crate) fn append_total(out: &mut Vec<u8>, total: &Total) -> Result<(), NoMemory>
    ensures { OnOk result (out.new.items ≡ out.old.items ++ total_line total.now) }
{
    append_files(out, total)?;
    append_counted(out, " bytes ", total.bytes)?;
    append(out, "\n")
}

fn append_files(out: &mut Vec<u8>, total: &Total) -> Result<(), NoMemory>
    ensures { OnOk result (out.new.items ≡ out.old.items ++ files_line total.now) }
{
    append_counted(out, "total taken ", total.taken)?;
    append_not_whole(out, total)
}

/// How many files are truncated, and how many are set aside.
fn append_not_whole(out: &mut Vec<u8>, total: &Total) -> Result<(), NoMemory>
    ensures { OnOk result (out.new.items ≡ out.old.items ++ not_whole total.now) }
{
    append_counted(out, " truncated ", total.cut_off)?;
    append_counted(out, " set aside ", total.set_aside)
}

fn append_counted(out: &mut Vec<u8>, word: &str, n: u64) -> Result<(), NoMemory>
    ensures { OnOk result (out.new.items ≡ out.old.items ++ counted word.now n) }
{
    append(out, word)?;
    append_number(out, n)
}
