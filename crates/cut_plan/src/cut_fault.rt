use hub_kinds::NoMemory;
use std::fmt;

/// Why a list of places isn't a plan of cuts, the first that is judged first; out of memory comes last (own).
#[derive(Clone, Copy, Debug, PartialEq, Eq, Drop)]
pub enum CutFault {
    /// A place lies before the one before it.
    Unsorted,
    /// A place lies after the text's end.
    PastEnd,
    /// Memory was asked for and refused.
    NoMemory,
}

impl CutFault {
    ghost use Rattle.std.specs.Prelude.{◌≡◌};
    ghost use Rattle.cut_plan.specs.Refusals.{cut_fault_number, cut_fault_text};

    /// The number of the refusal.
    pub fn number(&self) -> u32
        ensures { result ≡ cut_fault_number self.now }
    {
        match self {
            CutFault::Unsorted => 1,
            CutFault::PastEnd => 2,
            CutFault::NoMemory => 3,
        }
    }

    /// The refusal in words.
    pub fn text(&self) -> &'static str
        ensures { result.now ≡ cut_fault_text self.now }
    {
        match self {
            CutFault::Unsorted => "a cut in front of the one before it",
            CutFault::PastEnd => "a cut behind the end of the text",
            CutFault::NoMemory => "no memory",
        }
    }
}

impl fmt::Display for CutFault {
    ghost use Rattle.std.specs.Prelude.{Some};
    ghost use Rattle.std.specs.Fmt.{padded};
    ghost use Rattle.cut_plan.specs.Refusals.{cut_fault_text};

    ghost output = { λ fault. Some (cut_fault_text fault) };

    ghost styled_output = { λ fault spec. Some (padded spec (cut_fault_text fault)) };

    fn fmt<W: fmt::Write>(&self, f: &mut fmt::Formatter<W>) -> fmt::Result {
        f.pad(self.text())
    }
}

impl From<NoMemory> for CutFault {
    ghost use Rattle.std.specs.Prelude.{◌≡◌};
    ghost use Rattle.cut_plan.specs.declared.cut_fault.CutFault.TheVariants.{NoMemory};

    ghost from_gives = { λ _ fault. fault ≡ NoMemory };

    fn from(_error: NoMemory) -> CutFault {
        CutFault::NoMemory
    }
}
