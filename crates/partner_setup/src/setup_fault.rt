use hub_kinds::NoMemory;
use thiserror::Error;

/// Whose qualifier, id, code or name it is: the hub's, or that of the partner at a place.
#[derive(Clone, Copy, Debug, PartialEq, Eq)]
pub enum IdOwner {
    Hub,
    Partner(usize),
}

/// Where a guide is asked for or given: by the partner at a place, or among the guides.
#[derive(Clone, Copy, Debug, PartialEq, Eq)]
pub enum GuidesOwner {
    Partner(usize),
    Guide(usize),
}

/// Why rows, counters and guides make no setup, in the order in which it is judged; out of memory may come before
/// any other. Each reports the least row that is at fault, by its place in its list, from 0 on. Of rows that are given twice that is the
/// first one whose like is after it.
#[derive(Clone, Copy, Debug, PartialEq, Eq, Error)]
pub enum SetupFault {
    /// The name, or the qualifier and id, of the partner at this place are those of one after it.
    #[error("a partner is given twice")]
    SamePartner(usize),
    /// A delimiter of the partner at this place isn't one byte, isn't allowed, or means two of the four.
    #[error("delimiters that can't be written")]
    BadDelimiters(usize),
    /// A name, qualifier, id or code hasn't its form.
    #[error("a name, qualifier, id or code without its form")]
    BadId(IdOwner),
    /// A partner's guide that isn't there, two guides of a partner for the same sets; or the name of a guide that one after it has.
    #[error("guides that aren't there, or are there twice")]
    BadGuides(GuidesOwner),
    /// The route at this place leads to no partner or to one twice, or its code has no form or is that of one after it.
    #[error("a route that leads nowhere, or is given twice")]
    BadRoute(usize),
    /// The counters at this place in the counters file are out of 1 to 999,999,999, or of a partner that isn't there, or that one
    /// after them is of.
    #[error("a counter out of range, or of no partner")]
    BadCounter(usize),
    /// The cap of the partner at this place is out of 1 to 99,999.
    #[error("a cap out of range")]
    BadCap(usize),
    /// Memory was asked for and refused.
    #[error("no memory")]
    NoMemory,
}

impl SetupFault {
    ghost use Rattle.std.specs.Prelude.{◌≡◌};
    ghost use Rattle.partner_setup.specs.Refusals.{setup_number};

    /// The number of the refusal.
    pub fn number(&self) -> u32
        ensures { result ≡ setup_number self.now }
    {
        match self {
            SetupFault::SamePartner(_) => 1,
            SetupFault::BadDelimiters(_) => 2,
            SetupFault::BadId(_) => 3,
            SetupFault::BadGuides(_) => 4,
            SetupFault::BadRoute(_) => 5,
            SetupFault::BadCounter(_) => 6,
            SetupFault::BadCap(_) => 7,
            SetupFault::NoMemory => 8,
        }
    }
}

impl From<NoMemory> for SetupFault {
    ghost use Rattle.std.specs.Prelude.{◌≡◌};
    ghost use Rattle.partner_setup.specs.declared.setup_fault.SetupFault.TheVariants.{NoMemory};

    ghost from_gives = { λ _ fault. fault ≡ NoMemory };

    fn from(_error: NoMemory) -> SetupFault {
        SetupFault::NoMemory
    }
}
