ghost use Rattle.std.specs.Prelude.{◌≡◌, ◌++◌, IfOk, OnOk};
ghost use Rattle.guide_tree.specs.Words.{guide_of};
ghost use Rattle.guide_warnings.specs.Warnings as warnings;

use crate::dependencies::push_dependencies;
use crate::dictionary::push_dictionary;
use crate::groups::has_unusual_group;
use crate::headers::lets_headers_through;
use crate::labels::push_labels;
use crate::nodes::push_nodes;
use crate::unmet::push_unmet;
use crate::warning::{GroupWarning, Warning};
use guide_tree::{Guide, GuideHead};
use hub_kinds::{NoMemory, copy_text};
use std::alloc::Global;

fn push_group(alloc: Global, found: &mut Vec<Warning>, head: &GuideHead) -> Result<(), NoMemory>
    ensures { OnOk result (found.new.items ≡ found.old.items ++ warnings.group_warnings head.now) }
{
    if has_unusual_group(head) {
        found.push(Warning::UnusualGroup(GroupWarning {
            group: copy_text(alloc, head.group.as_slice())?,
            set: copy_text(alloc, head.set.as_slice())?,
        }))?;
    }
    Ok(())
}

fn push_header(found: &mut Vec<Warning>, head: &GuideHead) -> Result<(), NoMemory>
    ensures { OnOk result (found.new.items ≡ found.old.items ++ warnings.header_warnings head.now) }
{
    if lets_headers_through(head) {
        found.push(Warning::HeaderLetThrough)?;
    }
    Ok(())
}

fn push_head(alloc: Global, found: &mut Vec<Warning>, head: &GuideHead) -> Result<(), NoMemory>
    ensures { OnOk result (found.new.items ≡ found.old.items ++ warnings.head_warnings head.now) }
{
    push_group(alloc, found, head)?;
    push_header(found, head)
}

/// The warnings of a guide, in the guide's order. The only error is out of memory.
pub fn warnings_of(alloc: Global, guide: &Guide) -> Result<Vec<Warning>, NoMemory>
    ensures { IfOk result (λ found. found.items ≡ warnings.warnings_of (guide_of guide.now)) }
{
    let mut found = Vec::new(alloc);
    let rows = guide.rows();
    push_head(alloc, &mut found, &rows.head)?;
    push_dictionary(
        alloc,
        &mut found,
        &rows.nodes,
        rows.head.dictionary.as_slice(),
    )?;
    push_unmet(alloc, &mut found, &rows.nodes)?;
    push_nodes(alloc, &mut found, &rows.nodes)?;
    push_labels(alloc, &mut found, rows.depends.as_slice(), &rows.nodes)?;
    push_dependencies(alloc, &mut found, guide)?;
    Ok(found)
}
