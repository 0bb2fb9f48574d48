ghost use Rattle.std.specs.Prelude.{◌≡◌, ◌++◌, ℕ, List, IfOk, OnOk};
ghost use Rattle.std.specs.Option.{option_copied};
ghost use Rattle.ack_999.specs.Group.{are_same_number, group_codes_of, support_codes, trailer_codes};

use crate::support::GroupSupport;
use crate::trailer::GroupTrailer;
use hub_kinds::{GroupCode, Items, MOST_CONTROL_DIGITS, MOST_COUNT_DIGITS, NoMemory, read_number};
use std::alloc::Global;

/// What is wrong with a functional group, in the order of its codes (999 guide, AK905). `control`
/// is GS06, `trailer` the GE if there is one, `sets` the number of transaction sets between them,
/// `earlier` whether an earlier group of the interchange has the same GS06 as a number.
pub fn group_codes(
    alloc: Global,
    support: GroupSupport,
    control: &[u8],
    trailer: Option<&GroupTrailer>,
    sets: u64,
    earlier: bool,
) -> Result<Items<GroupCode>, NoMemory>
    ensures { IfOk result
        (λ codes. codes ≡ group_codes_of support control.now (option_copied trailer.entry) sets earlier) }
{
    let mut codes = Vec::new(alloc);
    add_support_codes(&mut codes, support)?;
    add_trailer_codes(&mut codes, control, trailer, sets)?;
    if earlier {
        codes.push(GroupCode::ControlNumberNotUnique)?;
    }
    Ok(Items::from_vec(codes))
}

/// Adds the code of a group that the sender's guides don't serve.
fn add_support_codes(codes: &mut Vec<GroupCode>, support: GroupSupport) -> Result<(), NoMemory>
    ensures { OnOk result (codes.new.items ≡ codes.old.items ++ support_codes support) }
{
    match support {
        GroupSupport::Served => {}
        GroupSupport::NotServed => codes.push(GroupCode::NotSupported)?,
        GroupSupport::VersionNotServed => codes.push(GroupCode::VersionNotSupported)?,
    }
    Ok(())
}

/// Adds the codes that GE shows, or that there is none.
fn add_trailer_codes(
    codes: &mut Vec<GroupCode>,
    control: &[u8],
    trailer: Option<&GroupTrailer>,
    sets: u64,
) -> Result<(), NoMemory>
    ensures { OnOk result
        (codes.new.items ≡ codes.old.items ++ trailer_codes control.now (option_copied trailer.entry) sets) }
{
    match trailer {
        None => codes.push(GroupCode::TrailerMissing)?,
        Some(trailer) => {
            if !agree(
                read_number(trailer.control.bytes(), MOST_CONTROL_DIGITS),
                read_number(control, MOST_CONTROL_DIGITS),
            ) {
                codes.push(GroupCode::ControlNumbersDiffer)?;
            }
            if !agree(
                read_number(trailer.listed.bytes(), MOST_COUNT_DIGITS),
                Some(sets),
            ) {
                codes.push(GroupCode::SetCountWrong)?;
            }
        }
    }
    Ok(())
}

/// Whether both are numbers, and the same.
fn agree(a: Option<u64>, b: Option<u64>) -> bool
    ensures { result ≡ are_same_number a b }
{
    match (a, b) {
        (Some(a), Some(b)) => a == b,
        _ => false,
    }
}
