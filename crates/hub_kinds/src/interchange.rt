ghost use Rattle.std.specs.Prelude.{◌≡◌, option_map};
ghost use Rattle.std.specs.Ordering.{nat_cmp};
ghost use Rattle.hub_kinds.specs.Interchange.{acknowledgment_code, fault_rank, note_text};

use crate::codes::Code;
use std::cmp::Ordering;

/// Why an interchange is refused, the least number first (own numbers; X12.5, interchange control, and X12.6,
/// functional group and transaction set headers).
#[derive(Clone, Copy, Debug, PartialEq, Eq)]
pub enum InterchangeFault {
    /// `1`: no IEA.
    TrailerMissing,
    /// `2`: ISA13 isn't nine digits.
    ControlNumberInvalid,
    /// `3`: IEA02 isn't 1 to 9 digits equal as a number to ISA13.
    ControlNumbersDiffer,
    /// `4`: IEA01 isn't 1 to 5 digits equal to the number of groups.
    GroupCountWrong,
    /// `5`: a segment out of place.
    SegmentMisplaced,
    /// `6`: a bad GS.
    GroupHeaderInvalid,
    /// `7`: a bad ST.
    SetHeaderInvalid,
    /// `8`: no partner is the sender.
    SenderUnknown,
    /// `9`: an earlier interchange of the text has the same number.
    Duplicate,
}

/// Which of two faults is reported where both are there: the one with the lower number comes first.
pub fn interchange_fault_order(a: InterchangeFault, b: InterchangeFault) -> Ordering
    ensures { result ≡ nat_cmp (fault_rank a) (fault_rank b) }
{
    rank(a).cmp(&rank(b))
}

fn rank(fault: InterchangeFault) -> u32
    ensures { result ≡ fault_rank fault }
{
    fault as u32 + 1
}

/// The interchange note code (X12.5, TA105) that means a fault, or for none: `000`. None for the faults 2 and 8, since such an
/// interchange is never answered. Takes no memory.
pub fn note_text(fault: Option<InterchangeFault>) -> Option<&'static str>
    ensures { option_map (λ text. text.now) result ≡ note_text fault }
{
    match fault {
        None => Some("000"),
        Some(InterchangeFault::TrailerMissing) => Some("023"),
        Some(InterchangeFault::ControlNumberInvalid) => None,
        Some(InterchangeFault::ControlNumbersDiffer) => Some("001"),
        Some(InterchangeFault::GroupCountWrong) => Some("021"),
        Some(InterchangeFault::SegmentMisplaced) => Some("022"),
        Some(InterchangeFault::GroupHeaderInvalid) => Some("024"),
        Some(InterchangeFault::SetHeaderInvalid) => Some("024"),
        Some(InterchangeFault::SenderUnknown) => None,
        Some(InterchangeFault::Duplicate) => Some("025"),
    }
}

/// The interchange acknowledgment code (X12.5, TA104) that is before a note: `A` where the note is `000`, else `R`.
pub fn acknowledgment_code(note: &str) -> &'static str
    ensures { result.now ≡ acknowledgment_code note.now }
{
    if note.as_bytes() == b"000".as_slice() {
        "A"
    } else {
        "R"
    }
}

impl Code for InterchangeFault {
    ghost use Rattle.hub_kinds.specs.Interchange.{fault_text};

    ghost text = { fault_text };

    fn text(self) -> &'static str {
        match self {
            InterchangeFault::TrailerMissing => "1",
            InterchangeFault::ControlNumberInvalid => "2",
            InterchangeFault::ControlNumbersDiffer => "3",
            InterchangeFault::GroupCountWrong => "4",
            InterchangeFault::SegmentMisplaced => "5",
            InterchangeFault::GroupHeaderInvalid => "6",
            InterchangeFault::SetHeaderInvalid => "7",
            InterchangeFault::SenderUnknown => "8",
            InterchangeFault::Duplicate => "9",
        }
    }

    fn all() -> &'static [InterchangeFault] {
        &[
            InterchangeFault::TrailerMissing,
            InterchangeFault::ControlNumberInvalid,
            InterchangeFault::ControlNumbersDiffer,
            InterchangeFault::GroupCountWrong,
            InterchangeFault::SegmentMisplaced,
            InterchangeFault::GroupHeaderInvalid,
            InterchangeFault::SetHeaderInvalid,
            InterchangeFault::SenderUnknown,
            InterchangeFault::Duplicate,
        ]
    }
}
