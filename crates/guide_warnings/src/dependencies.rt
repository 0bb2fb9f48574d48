ghost use Rattle.std.specs.Prelude.{◌≡◌, ◌++◌, OnOk, option_map};
ghost use Rattle.std.specs.List.{find};
ghost use Rattle.guide_tree.specs.Words.{nodes_view};
ghost use Rattle.guide_warnings.specs.Codes as codes;
ghost use Rattle.guide_warnings.specs.Dependencies as dependencies;

use crate::codes::first_doubtful;
use crate::rows::row_at;
use crate::warning::{CodeDoubt, DependencyWarning, Warning};
use guide_tree::{Dependency, Guide, SimpleRow, Slot};
use hub_kinds::{NoMemory, copy_text};
use std::alloc::Global;

fn push_row(
    alloc: Global,
    found: &mut Vec<Warning>,
    number: u64,
    dependency: &Dependency,
    slot: &Slot,
    row: &SimpleRow,
) -> Result<(), NoMemory>
    ensures { OnOk result (found.new.items ≡ found.old.items
        ++ dependencies.code_warning number dependency.now slot.now (find (codes.is_not_listed row.now) dependency.now.codes)) }
{
    let Some(code) = first_doubtful(CodeDoubt::NotListed, row, dependency.codes.as_slice()) else {
        return Ok(());
    };
    found.push(Warning::CodeOfDependency(DependencyWarning {
        dependency: number,
        slot: slot.number,
        id: copy_text(alloc, slot.id.as_slice())?,
        element: dependency.at,
        code: copy_text(alloc, code.as_slice())?,
    }))?;
    Ok(())
}

fn push_dependency(
    alloc: Global,
    found: &mut Vec<Warning>,
    number: u64,
    dependency: &Dependency,
    slot: Option<&Slot>,
) -> Result<(), NoMemory>
    ensures { OnOk result (found.new.items ≡ found.old.items
        ++ dependencies.slot_warning number dependency.now (option_map (λ s. s.now) slot.entry)) }
{
    match slot {
        None => Ok(()),
        Some(slot) => match row_at(slot, dependency.at) {
            None => Ok(()),
            Some(row) => push_row(alloc, found, number, dependency, slot, row),
        },
    }
}

/// Adds what a guide's dependencies ask for that can't be.
pub(crate) fn push_dependencies(
    alloc: Global,
    found: &mut Vec<Warning>,
    guide: &Guide,
) -> Result<(), NoMemory>
    ensures { OnOk result (found.new.items ≡ found.old.items
        ++ dependencies.dependency_warnings (nodes_view guide.now.nodes.items) 1 guide.now.depends) }
{
    let depends = guide.rows().depends.as_slice();
    for i in 0..depends.len() {
        let slot = guide.slot_labelled(depends[i].slot.as_slice());
        push_dependency(alloc, found, i as u64 + 1, &depends[i], slot)?;
    }
    Ok(())
}
