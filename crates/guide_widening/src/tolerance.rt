ghost use Rattle.std.specs.Prelude.{◌≡◌, ◌++◌, IfOk, OnOk, map};
ghost use Rattle.guide_widening.specs.Differences as guides;

use crate::codes::{push_gone, push_new};
use crate::difference::{Difference, Key};
use crate::values::at_node;
use guide_tree::{Codes, GuideHead};
use hub_kinds::{Code, Items, NoMemory, code_text, copy_text};
use std::alloc::Global;

/// The texts of `codes`.
fn written<C: Code>(alloc: Global, codes: &[C]) -> Result<Codes, NoMemory>
    ensures { IfOk result (λ texts. texts ≡ map C.text codes.now) }
{
    let mut texts = Vec::new(alloc);
    for i in 0..codes.len() {
        texts.push(copy_text(alloc, code_text(codes[i]).as_bytes())?)?;
    }
    Codes::new(alloc, Items::from_vec(texts))
}

fn push_codes<C: Code>(
    alloc: Global,
    found: &mut Vec<Difference>,
    key: Key,
    old: &[C],
    new: &[C],
) -> Result<(), NoMemory>
    ensures { OnOk result (found.new.items
        ≡ found.old.items ++ guides.tolerance_differences key (map C.text old.now) (map C.text new.now)) }
{
    let before = written(alloc, old)?;
    let after = written(alloc, new)?;
    push_gone(alloc, found, at_node(0), key, &after, before.as_slice())?;
    push_new(alloc, found, at_node(0), key, &before, after.as_slice())
}

/// Adds which faults don't reject a set by one of two guides.
pub(crate) fn push_tolerated(
    alloc: Global,
    found: &mut Vec<Difference>,
    old: &GuideHead,
    new: &GuideHead,
) -> Result<(), NoMemory>
    ensures { OnOk result (found.new.items ≡ found.old.items ++ guides.tolerated_differences old.now new.now) }
{
    push_codes(
        alloc,
        found,
        Key::TolerateSegment,
        old.tolerate_segment.as_slice(),
        new.tolerate_segment.as_slice(),
    )?;
    push_codes(
        alloc,
        found,
        Key::TolerateElement,
        old.tolerate_element.as_slice(),
        new.tolerate_element.as_slice(),
    )
}
