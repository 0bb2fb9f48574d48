ghost use Rattle.std.specs.Prelude.{◌≡◌, ◌⊎◌, OnOk};
ghost use Rattle.std.specs.Io.KnownBytes.{Appends};
ghost use Rattle.day_command.specs.Failure.{line_of, status_of};

use hub_kinds::NoMemory;
use night_review::ReviewFault;
use program_frame::Reported;
use sets_again::AgainFault;
use std::alloc::AllocError;
use std::io::Write;
use system_io::print_text;

/// Why a run failed.
#[derive(Clone, Copy, Debug, PartialEq, Eq)]
pub enum Failure {
    /// The folder of all nights can't be listed, or has a name that isn't UTF-8.
    Input,
    /// The night that is named has no table or no folder out/ that can be read.
    Night,
    /// The night has no input or no table that can be read.
    Papers,
    /// The table of the night isn't that of its input.
    Unfit,
    /// The table of the night doesn't give the totals of its report.
    Totals,
    /// The clock can't be read.
    Clock,
    /// Standard error failed, on which an export names tables.
    Stderr,
    /// Memory was refused.
    Memory,
}

impl Failure {
    /// Prints the failure's line, and gives the status that the program ends with, and whether the line is printed. A fault of standard
    /// error changes no status.
    pub fn report<E: Write>(self, err: &mut E) -> Reported
        ensures status { result.status ≡ status_of self }
        ensures values { (result.status ≡ 4) ⊎ ((result.status ≡ 5) ⊎ (result.status ≡ 6)) }
        ensures printed { OnOk result.printed (Appends (E.contents err.old) (E.contents err.new) (line_of self)) }
    {
        Reported {
            printed: print_text(self.line().as_bytes(), err),
            status: self.status(),
        }
    }

    fn line(self) -> &'static str
        ensures { result.now ≡ line_of self }
    {
        match self {
            Failure::Input =>
                "nighthub_day: input: NIGHTS can't be listed, or has a name that isn't UTF-8\n",
            Failure::Night =>
                "nighthub_day: input: the night has no track.csv and out/ that can be read\n",
            Failure::Papers =>
                "nighthub_day: input: the night has no from/in.x12 and track.csv that can be read\n",
            Failure::Unfit =>
                "nighthub_day: input: the night's track.csv isn't the table of its from/in.x12\n",
            Failure::Totals =>
                "nighthub_day: input: the night's track.csv doesn't give the totals in its file total\n",
            Failure::Clock => "nighthub_day: input: the clock can't be read\n",
            Failure::Stderr => "nighthub_day: output stderr\n",
            Failure::Memory => "nighthub_day: memory\n",
        }
    }

    fn status(self) -> u8
        ensures status { result ≡ status_of self }
        ensures values { (result ≡ 4) ⊎ ((result ≡ 5) ⊎ (result ≡ 6)) }
    {
        match self {
            Failure::Input
            | Failure::Night
            | Failure::Papers
            | Failure::Unfit
            | Failure::Totals
            | Failure::Clock => 4,
            Failure::Stderr => 5,
            Failure::Memory => 6,
        }
    }
}

impl From<AllocError> for Failure {
    ghost use Rattle.std.specs.Prelude.{◌≡◌};
    ghost use Rattle.day_command.specs.declared.failure.Failure.TheVariants.{Memory};

    ghost from_gives = { λ _ failure. failure ≡ Memory };

    fn from(_error: AllocError) -> Failure {
        Failure::Memory
    }
}

impl From<NoMemory> for Failure {
    ghost use Rattle.std.specs.Prelude.{◌≡◌};
    ghost use Rattle.day_command.specs.declared.failure.Failure.TheVariants.{Memory};

    ghost from_gives = { λ _ failure. failure ≡ Memory };

    fn from(_error: NoMemory) -> Failure {
        Failure::Memory
    }
}

impl From<AgainFault> for Failure {
    ghost use Rattle.std.specs.Prelude.{◌≡◌};
    ghost use Rattle.day_command.specs.Failure.{of_again};

    ghost from_gives = { λ fault failure. failure ≡ of_again fault };

    fn from(fault: AgainFault) -> Failure {
        match fault {
            AgainFault::Unfit => Failure::Unfit,
            AgainFault::Memory => Failure::Memory,
        }
    }
}

impl From<ReviewFault> for Failure {
    ghost use Rattle.std.specs.Prelude.{◌≡◌};
    ghost use Rattle.day_command.specs.Failure.{of_review};

    ghost from_gives = { λ fault failure. failure ≡ of_review fault };

    fn from(fault: ReviewFault) -> Failure {
        match fault {
            ReviewFault::Unlisted => Failure::Input,
            ReviewFault::Clock => Failure::Clock,
            ReviewFault::Memory => Failure::Memory,
        }
    }
}
