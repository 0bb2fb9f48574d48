ghost use Rattle.std.specs.Prelude.{◌≡◌, ◌++◌, OnOk};
ghost use Rattle.std.specs.List.{flat_map};
ghost use Rattle.guide_page.specs.Conditions as items;
ghost use Rattle.guide_page.specs.Tags.{list_part, whole_list};

use crate::tags::{append_code, append_code_list, append_fixed, append_small, append_text};
use crate::words::element_name;
use guide_tree::{Condition, Dependency, DependencyKind, Pick, Relation};
use hub_kinds::NoMemory;
use std::alloc::Global;

fn relation_words(relation: Relation) -> &'static [u8]
    ensures { result.now ≡ items.relation_words relation }
{
    match relation {
        Relation::Paired => b"<li>All or none of ",
        Relation::Required => b"<li>At least one of ",
        Relation::Exclusion => b"<li>At most one of ",
        Relation::Conditional => b"<li>If the first is there, all others: ",
        Relation::ListConditional => b"<li>If the first is there, at least one other: ",
    }
}

fn append_position(
    alloc: Global,
    out: &mut Vec<u8>,
    id: &[u8],
    position: u32,
) -> Result<(), NoMemory>
    ensures { OnOk result (out.new.items ≡ out.old.items ++ items.position_part id.now position) }
{
    let name = element_name(alloc, id, u64::from(position))?;
    append_code(alloc, out, name.as_slice())
}

fn append_positions(
    alloc: Global,
    out: &mut Vec<u8>,
    id: &[u8],
    positions: &[u32],
) -> Result<(), NoMemory>
    ensures { OnOk result (out.new.items ≡ out.old.items ++ flat_map (items.position_part id.now) positions.now) }
{
    for i in 0..positions.len() {
        append_position(alloc, out, id, positions[i])?;
    }
    Ok(())
}

fn append_condition(
    alloc: Global,
    out: &mut Vec<u8>,
    id: &[u8],
    condition: &Condition,
) -> Result<(), NoMemory>
    ensures { OnOk result (out.new.items ≡ out.old.items ++ items.condition_item id.now condition.now) }
{
    append_fixed(out, relation_words(condition.relation))?;
    append_positions(alloc, out, id, condition.positions.as_slice())?;
    append_fixed(out, b"</li>\n")
}

fn append_condition_items(
    alloc: Global,
    out: &mut Vec<u8>,
    id: &[u8],
    conditions: &[Condition],
) -> Result<(), NoMemory>
    ensures { OnOk result (out.new.items ≡ out.old.items ++ flat_map (items.condition_item id.now) conditions.now) }
{
    for i in 0..conditions.len() {
        append_condition(alloc, out, id, &conditions[i])?;
    }
    Ok(())
}

fn append_condition_list(
    alloc: Global,
    out: &mut Vec<u8>,
    id: &[u8],
    conditions: &[Condition],
) -> Result<(), NoMemory>
    ensures { OnOk result (out.new.items ≡ out.old.items ++ whole_list (items.condition_item id.now) conditions.now) }
{
    append_fixed(out, b"<ul>\n")?;
    append_condition_items(alloc, out, id, conditions)?;
    append_fixed(out, b"</ul>\n")
}

/// Appends the conditions of a segment with this id, if it has any.
pub(crate) fn append_conditions(
    alloc: Global,
    out: &mut Vec<u8>,
    id: &[u8],
    conditions: &[Condition],
) -> Result<(), NoMemory>
    ensures { OnOk result (out.new.items ≡ out.old.items ++ list_part (items.condition_item id.now) conditions.now) }
{
    match conditions {
        [] => Ok(()),
        [..] => append_condition_list(alloc, out, id, conditions),
    }
}

fn append_pick(alloc: Global, out: &mut Vec<u8>, id: &[u8], pick: &Pick) -> Result<(), NoMemory>
    ensures { OnOk result (out.new.items ≡ out.old.items ++ items.pick_item id.now pick.now) }
{
    append_fixed(out, b"<li>Only if ")?;
    append_position(alloc, out, id, pick.position)?;
    append_fixed(out, b"is one of ")?;
    append_code_list(alloc, out, &pick.codes)?;
    append_fixed(out, b"</li>\n")
}

fn append_pick_items(
    alloc: Global,
    out: &mut Vec<u8>,
    id: &[u8],
    picks: &[Pick],
) -> Result<(), NoMemory>
    ensures { OnOk result (out.new.items ≡ out.old.items ++ flat_map (items.pick_item id.now) picks.now) }
{
    for i in 0..picks.len() {
        append_pick(alloc, out, id, &picks[i])?;
    }
    Ok(())
}

fn append_pick_list(
    alloc: Global,
    out: &mut Vec<u8>,
    id: &[u8],
    picks: &[Pick],
) -> Result<(), NoMemory>
    ensures { OnOk result (out.new.items ≡ out.old.items ++ whole_list (items.pick_item id.now) picks.now) }
{
    append_fixed(out, b"<ul>\n")?;
    append_pick_items(alloc, out, id, picks)?;
    append_fixed(out, b"</ul>\n")
}

/// Appends the codes by which a segment with this id fits its place, if it picks by any.
pub(crate) fn append_picks(
    alloc: Global,
    out: &mut Vec<u8>,
    id: &[u8],
    picks: &[Pick],
) -> Result<(), NoMemory>
    ensures { OnOk result (out.new.items ≡ out.old.items ++ list_part (items.pick_item id.now) picks.now) }
{
    match picks {
        [] => Ok(()),
        [..] => append_pick_list(alloc, out, id, picks),
    }
}

fn kind_words(kind: DependencyKind) -> &'static [u8]
    ensures { result.now ≡ items.kind_words kind }
{
    match kind {
        DependencyKind::Need => b"must be there</li>\n",
        DependencyKind::Ban => b"must not be there</li>\n",
    }
}

fn append_target(
    alloc: Global,
    out: &mut Vec<u8>,
    target: &[u8],
    element: u32,
) -> Result<(), NoMemory>
    ensures { OnOk result (out.new.items ≡ out.old.items ++ items.target_part target.now element) }
{
    if element == 0 {
        return append_code(alloc, out, target);
    }
    append_fixed(out, b"element ")?;
    append_small(out, element)?;
    append_fixed(out, b" of ")?;
    append_code(alloc, out, target)
}

fn append_trigger(alloc: Global, out: &mut Vec<u8>, dependency: &Dependency) -> Result<(), NoMemory>
    ensures { OnOk result (out.new.items ≡ out.old.items ++ items.trigger_part dependency.now) }
{
    append_fixed(out, b"<li>If element ")?;
    append_small(out, dependency.at)?;
    append_fixed(out, b" of ")?;
    append_text(alloc, out, &dependency.slot)?;
    append_fixed(out, b"is one of ")?;
    append_code_list(alloc, out, &dependency.codes)?;
    append_fixed(out, b": ")
}

fn append_whole_target(
    alloc: Global,
    out: &mut Vec<u8>,
    dependency: &Dependency,
) -> Result<(), NoMemory>
    ensures { OnOk result (out.new.items ≡ out.old.items
        ++ items.target_part dependency.now.target dependency.now.element) }
{
    append_target(alloc, out, dependency.target.as_slice(), dependency.element)
}

fn append_dependency(
    alloc: Global,
    out: &mut Vec<u8>,
    dependency: &Dependency,
) -> Result<(), NoMemory>
    ensures { OnOk result (out.new.items ≡ out.old.items ++ items.dependency_item dependency.now) }
{
    append_trigger(alloc, out, dependency)?;
    append_whole_target(alloc, out, dependency)?;
    append_fixed(out, kind_words(dependency.kind))
}

fn append_dependency_items(
    alloc: Global,
    out: &mut Vec<u8>,
    depends: &[Dependency],
) -> Result<(), NoMemory>
    ensures { OnOk result (out.new.items ≡ out.old.items ++ flat_map items.dependency_item depends.now) }
{
    for i in 0..depends.len() {
        append_dependency(alloc, out, &depends[i])?;
    }
    Ok(())
}

/// Appends dependencies as a list.
pub(crate) fn append_dependency_list(
    alloc: Global,
    out: &mut Vec<u8>,
    depends: &[Dependency],
) -> Result<(), NoMemory>
    ensures { OnOk result (out.new.items ≡ out.old.items ++ whole_list items.dependency_item depends.now) }
{
    append_fixed(out, b"<ul>\n")?;
    append_dependency_items(alloc, out, depends)?;
    append_fixed(out, b"</ul>\n")
}
