ghost use Rattle.std.specs.Prelude.{◌≡◌, ◌++◌, IfOk, OnOk};
ghost use Rattle.std.specs.List.{list_all};
ghost use Rattle.guide_tree.specs.Words.{guide_of};
ghost use Rattle.guide_widening.specs.Changes.{is_widening};
ghost use Rattle.guide_widening.specs.Differences as guides;
ghost use Rattle.guide_widening.specs.Wider.{is_wider};

use crate::changes::{convention_change, text_change};
use crate::dependencies::push_dependencies;
use crate::difference::{Change, Difference, Key, Value};
use crate::hierarchy::push_hierarchy;
use crate::push::push;
use crate::tolerance::push_tolerated;
use crate::values::{at_node, text_of};
use crate::walk::push_nodes;
use guide_tree::{Guide, GuideHead};
use hub_kinds::{NoMemory, copy_text};
use std::alloc::Global;

fn push_text(
    alloc: Global,
    found: &mut Vec<Difference>,
    key: Key,
    old: &[u8],
    new: &[u8],
) -> Result<(), NoMemory>
    ensures { OnOk result (found.new.items ≡ found.old.items ++ guides.text_differences key old.now new.now) }
{
    let before = Value::Text(copy_text(alloc, old)?);
    let after = Value::Text(copy_text(alloc, new)?);
    push(found, at_node(0), key, text_change(old, new), before, after)
}

fn push_convention(
    alloc: Global,
    found: &mut Vec<Difference>,
    old: &GuideHead,
    new: &GuideHead,
) -> Result<(), NoMemory>
    ensures { OnOk result (found.new.items ≡ found.old.items ++ guides.convention_differences old.now.convention new.now.convention) }
{
    let change = convention_change(&old.convention, &new.convention);
    let before = text_of(alloc, &old.convention)?;
    let after = text_of(alloc, &new.convention)?;
    push(found, at_node(0), Key::Convention, change, before, after)
}

fn push_head(
    alloc: Global,
    found: &mut Vec<Difference>,
    old: &GuideHead,
    new: &GuideHead,
) -> Result<(), NoMemory>
    ensures { OnOk result (found.new.items ≡ found.old.items ++ guides.head_differences old.now new.now) }
{
    push_text(
        alloc,
        found,
        Key::Group,
        old.group.as_slice(),
        new.group.as_slice(),
    )?;
    push_text(
        alloc,
        found,
        Key::Set,
        old.set.as_slice(),
        new.set.as_slice(),
    )?;
    push_text(
        alloc,
        found,
        Key::Version,
        old.version.as_slice(),
        new.version.as_slice(),
    )?;
    push_convention(alloc, found, old, new)?;
    push_tolerated(alloc, found, old, new)
}

fn all_differences(alloc: Global, old: &Guide, new: &Guide) -> Result<Vec<Difference>, NoMemory>
    ensures { IfOk result (λ found. found.items ≡ guides.differences (guide_of old.now) (guide_of new.now)) }
{
    let mut found = Vec::new(alloc);
    let before = old.rows();
    let after = new.rows();
    push_head(alloc, &mut found, &before.head, &after.head)?;
    push_hierarchy(alloc, &mut found, &before.hl, &after.hl)?;
    push_dependencies(
        alloc,
        &mut found,
        before.depends.as_slice(),
        after.depends.as_slice(),
    )?;
    push_nodes(alloc, &mut found, &before.nodes, &after.nodes)?;
    Ok(found)
}

/// What `old` and `new` say otherwise, in the old guide's order: none of it is narrower or can't be compared exactly where the new guide is
/// wider. The only error is out of memory.
pub fn differences(alloc: Global, old: &Guide, new: &Guide) -> Result<Vec<Difference>, NoMemory>
    ensures found { IfOk result (λ found. found.items ≡ guides.differences (guide_of old.now) (guide_of new.now)) }
    ensures wider { IfOk result (λ found. list_all is_widening found.items ≡ is_wider (guide_of old.now) (guide_of new.now)) }
{
    let found = all_differences(alloc, old, new)?;
    Ok(found)
}

/// Whether none of these differences is narrower or can't be compared.
pub fn are_widenings(found: &[Difference]) -> bool
    ensures { result ≡ list_all is_widening found.now }
{
    found.iter().all(|difference| is_widening(difference))
}

fn is_widening(difference: &Difference) -> bool
    ensures { result ≡ is_widening difference.now }
{
    match difference.change {
        Change::Wider => true,
        Change::Narrower | Change::Other => false,
    }
}
