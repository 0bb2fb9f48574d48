ghost use Rattle.std.specs.Prelude.{◌≡◌, ◌++◌, OnOk, IfOk, map};
ghost use Rattle.ack_lines.specs.Reported as report;

use ack_read::{GroupTold, SetTold, Ta1Told, Told};
use hub_kinds::NoMemory;
use std::alloc::Global;
use std::mem;

/// What is reported.
#[derive(Debug, Drop)]
pub(crate) enum Reported<'a> {
    /// An interchange.
    OfInterchange(Ta1Told<'a>),
    /// A group.
    OfGroup(GroupTold<'a>),
    /// A set, and whether its group is rejected.
    OfSet(SetTold<'a>, bool),
}

/// What is reported, in the order of the lines: a group that is rejected before its sets.
pub(crate) fn reported_of<'a>(
    alloc: Global,
    found: Vec<Told<'a>>,
) -> Result<Vec<Reported<'a>>, NoMemory>
    ensures { IfOk result (λ all. all.items ≡ report.reported_of found.entry.items) }
{
    let mut all = Vec::new(alloc);
    let mut sets = Vec::new(alloc);
    for told in found {
        match told {
            Told::OfSet(set) => sets.push(set)?,
            Told::OfInterchange(ta1) => {
                add_sets(&mut all, mem::replace(&mut sets, Vec::new(alloc)), false)?;
                all.push(Reported::OfInterchange(ta1))?;
            }
            Told::OfGroup(group) => {
                add_group(&mut all, group, mem::replace(&mut sets, Vec::new(alloc)))?;
            }
        }
    }
    add_sets(&mut all, sets, false)?;
    Ok(all)
}

/// Adds a group with its sets.
fn add_group<'a>(
    all: &mut Vec<Reported<'a>>,
    group: GroupTold<'a>,
    sets: Vec<SetTold<'a>>,
) -> Result<(), NoMemory>
    ensures { OnOk result (all.new.items ≡ all.old.items ++ report.group_reported group.entry sets.entry.items) }
{
    if is_rejected(group.code.bytes()) {
        all.push(Reported::OfGroup(group))?;
        return add_sets(all, sets, true);
    }
    add_sets(all, sets, false)?;
    all.push(Reported::OfGroup(group))?;
    Ok(())
}

/// Adds sets, whose group is rejected, or isn't.
fn add_sets<'a>(
    all: &mut Vec<Reported<'a>>,
    sets: Vec<SetTold<'a>>,
    falls: bool,
) -> Result<(), NoMemory>
    ensures { OnOk result (all.new.items ≡ all.old.items ++ map (report.set_reported falls) sets.entry.items) }
{
    for set in sets {
        all.push(Reported::OfSet(set, falls))?;
    }
    Ok(())
}

/// Whether a verdict is R.
pub(crate) fn is_rejected(code: &[u8]) -> bool
    ensures { result ≡ report.is_rejected code.now }
{
    code == b"R".as_slice()
}
