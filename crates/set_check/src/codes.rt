ghost use Rattle.std.specs.Prelude.{◌≡◌, ◌++◌, Some, IfOk, OnOk};
ghost use Rattle.std.specs.Option.{option_copied};
ghost use Rattle.hub_kinds.specs.declared.set_codes.SetCode.TheVariants.{ControlNumbersDiffer, SegmentCountWrong};
ghost use Rattle.set_check.specs.Codes.{code_if, control_of, envelope_codes, fault_codes, has_other_control, has_other_count};
ghost use Rattle.set_check.specs.Codes.{set_codes_of};
ghost use Rattle.set_check.specs.Checked.{guide_tree_of};
ghost use Rattle.set_check.specs.MeetsLaw.{IsWellGuided};
ghost use Rattle.x12_segs.specs.Words.{SegValue};

use crate::convention::has_other_convention;
use crate::faults::{has_base_fault, has_implementation_fault};
use guide_tree::Guide;
use hub_kinds::{Faults, NoMemory, SetCode, read_number};
use std::alloc::Global;
use x12_segs::SegView;

/// How many codes an IK5 has room for.
const MOST_CODES: usize = 5;
/// The least length of a control number.
pub const LEAST_CONTROL: usize = 4;
/// How many digits SE01 has at most.
pub const COUNT_DIGITS: usize = 10;

/// The codes of a set, in their order, the first five (999 guide, IK502): by its faults, its guide
/// if it has one, its ST, how many segments it has with ST and SE, its SE if it has one, and
/// whether an earlier set of its group has its ST02. The only error is out of memory.
pub(crate) fn set_codes(
    alloc: Global,
    faults: &Faults,
    guide: Option<&Guide>,
    header: &SegView,
    segments: u64,
    trailer: Option<&SegView>,
    earlier: bool,
) -> Result<Vec<SetCode>, NoMemory>
    ensures codes { IfOk result (λ codes. codes.items
        ≡ set_codes_of faults.now (guide_tree_of (option_copied guide.entry)) header.now segments (option_copied trailer.entry) earlier) }
    ensures sound { IfOk result (λ _. IsWellGuided (guide_tree_of (option_copied guide.entry))) }
{
    let (_, control, convention) = header.first_elements();
    let mut codes = Vec::new(alloc);
    add_fault_codes(&mut codes, faults)?;
    add_if(&mut codes, guide.is_none(), SetCode::NotSupported)?;
    add_envelope_codes(&mut codes, control, segments, trailer)?;
    add_if(&mut codes, earlier, SetCode::ControlNumberNotUnique)?;
    let other = has_other_convention(header.delims(), guide, convention);
    add_if(&mut codes, other, SetCode::ConventionNotSupported)?;
    codes.truncate(MOST_CODES);
    Ok(codes)
}

fn add_if(codes: &mut Vec<SetCode>, holds: bool, code: SetCode) -> Result<(), NoMemory>
    ensures { OnOk result (codes.new.items ≡ codes.old.items ++ code_if holds code) }
{
    if holds {
        codes.push(code)?;
    }
    Ok(())
}

/// Adds the codes that its faults show.
fn add_fault_codes(codes: &mut Vec<SetCode>, faults: &Faults) -> Result<(), NoMemory>
    ensures { OnOk result (codes.new.items ≡ codes.old.items ++ fault_codes faults.now) }
{
    add_if(codes, has_base_fault(faults), SetCode::SegmentsInError)?;
    add_if(
        codes,
        has_implementation_fault(faults),
        SetCode::ImplementationSegmentsInError,
    )
}

/// Adds the codes that ST02, SE and the number of segments show.
fn add_envelope_codes(
    codes: &mut Vec<SetCode>,
    control: &[u8],
    segments: u64,
    trailer: Option<&SegView>,
) -> Result<(), NoMemory>
    ensures { OnOk result ((header : SegValue) → control_of header ≡ control.now
        → codes.new.items ≡ codes.old.items ++ envelope_codes header segments (option_copied trailer.entry)) }
{
    add_if(codes, trailer.is_none(), SetCode::TrailerMissing)?;
    if let Some(trailer) = trailer {
        add_trailer_codes(codes, control, segments, trailer)?;
    }
    let short = control.len() < LEAST_CONTROL;
    add_if(codes, short, SetCode::ControlNumberInvalid)
}

/// Adds the codes that an SE shows beside ST02 and the number of segments.
fn add_trailer_codes(
    codes: &mut Vec<SetCode>,
    control: &[u8],
    segments: u64,
    trailer: &SegView,
) -> Result<(), NoMemory>
    ensures { OnOk result ((header : SegValue) → control_of header ≡ control.now
        → codes.new.items ≡ codes.old.items ++ code_if (has_other_control header (Some trailer.now)) ControlNumbersDiffer
        ++ code_if (has_other_count segments (Some trailer.now)) SegmentCountWrong) }
{
    let (count, given, _) = trailer.first_elements();
    let other = given != control;
    add_if(codes, other, SetCode::ControlNumbersDiffer)?;
    let wrong = read_number(count, COUNT_DIGITS) != Some(segments);
    add_if(codes, wrong, SetCode::SegmentCountWrong)
}
