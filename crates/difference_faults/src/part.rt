ghost use Rattle.std.specs.Prelude.{◌≡◌, Some, IfOk, IfSome, IsTrue, option_map};
ghost use Rattle.guide_tree.specs.Words.{guide_of, labelled};
ghost use Rattle.guide_widening.specs.Differences.{dependency_value, pair_value};
ghost use Rattle.guide_widening.specs.NodeDifferences.{condition_value};
ghost use Rattle.difference_faults.specs.Parts as parts;
ghost use Rattle.difference_faults.specs.Parts.{IsPart, IsTarget};

use guide_tree::{Condition, Dependency, Guide, HlPair};
use guide_widening::{Difference, Key, Value, condition_written, dependency_written, pair_written};
use hub_kinds::NoMemory;
use std::alloc::Global;

/// What of two guides a difference is of.
#[derive(Clone, Copy, Debug)]
pub enum Part<'g> {
    /// A segment with this id, or a loop that it begins; or a rule of all segments.
    Segment(&'g [u8]),
    /// A dependency, whose target has this number.
    Target(&'g Dependency, u32),
    /// A relational condition.
    Condition(&'g Condition),
    /// A level, and that of its parent.
    Levels(&'g HlPair),
}

/// Whether the new guide has the node no more.
pub fn is_gone(key: Key, new: &Value) -> bool
    ensures { result ≡ parts.is_gone key new.now }
{
    match (key, new) {
        (Key::Node, Value::Nothing) => true,
        _ => false,
    }
}

/// The number after this one.
fn next_number(number: u32) -> u32
    ensures { result ≡ parts.next_number number }
{
    if number == u32::MAX {
        number
    } else {
        number + 1
    }
}

/// The id of the segment with a number, or of the first segment of the loop with it; empty if there is none.
fn id_at(guide: &Guide, number: u32) -> &[u8]
    ensures { result.now ≡ parts.id_at (guide_of guide.entry.now).nodes number }
{
    if let Some(slot) = guide.slot(number) {
        return slot.id.as_slice();
    }
    match guide.slot(next_number(number)) {
        None => b"",
        Some(slot) => slot.id.as_slice(),
    }
}

/// The id of the node of which two guides differ.
fn id_of<'g>(old: &'g Guide, new: &'g Guide, difference: &Difference) -> &'g [u8]
    ensures { result.now ≡ parts.id_of (guide_of old.entry.now) (guide_of new.entry.now) difference.now }
{
    if is_gone(difference.key, &difference.new) {
        id_at(old, difference.at.node)
    } else {
        id_at(new, difference.at.node)
    }
}

/// Whether two values are the same text.
fn is_same(one: &Value, other: &Value) -> bool
    ensures { IsTrue result → one.now ≡ other.now }
{
    match (one, other) {
        (Value::Text(one), Value::Text(other)) => one.as_slice() == other.as_slice(),
        _ => false,
    }
}

/// The dependency that is written so; none if there is none.
fn dependency_as<'g>(
    alloc: Global,
    dependencies: &'g [Dependency],
    value: &Value,
) -> Result<Option<&'g Dependency>, NoMemory>
    ensures { IfOk result (λ found. IfSome found (λ r. value.now ≡ dependency_value r.now)) }
{
    for dependency in dependencies {
        let written = dependency_written(alloc, dependency)?;
        if is_same(value, &written) {
            return Ok(Some(dependency));
        }
    }
    Ok(None)
}

/// The condition that is written so; none if there is none.
fn condition_as<'g>(
    alloc: Global,
    conditions: &'g [Condition],
    value: &Value,
) -> Result<Option<&'g Condition>, NoMemory>
    ensures { IfOk result (λ found. IfSome found (λ c. value.now ≡ condition_value c.now)) }
{
    for condition in conditions {
        let written = condition_written(alloc, condition)?;
        if is_same(value, &written) {
            return Ok(Some(condition));
        }
    }
    Ok(None)
}

/// The pair of levels that is written so; none if there is none.
fn pair_as<'g>(
    alloc: Global,
    pairs: &'g [HlPair],
    value: &Value,
) -> Result<Option<&'g HlPair>, NoMemory>
    ensures { IfOk result (λ found. IfSome found (λ p. value.now ≡ pair_value p.now)) }
{
    for pair in pairs {
        let written = pair_written(alloc, pair)?;
        if is_same(value, &written) {
            return Ok(Some(pair));
        }
    }
    Ok(None)
}

/// The number of the slot that a label names.
fn number_of(guide: &Guide, label: &[u8]) -> Option<u32>
    ensures { result ≡ option_map (λ s. s.number) (labelled (guide_of guide.now).nodes label.now) }
{
    match guide.slot_labelled(label) {
        None => None,
        Some(slot) => Some(slot.number),
    }
}

/// The dependency of the new guide that a difference writes, and the number of its target.
fn target_of<'g>(
    alloc: Global,
    new: &'g Guide,
    difference: &Difference,
) -> Result<Option<(&'g Dependency, u32)>, NoMemory>
    requires { difference.now.key ≡ Key.Dependency }
    ensures { IfOk result (λ found. IfSome found (λ t. IsTarget (guide_of new.entry.now) difference.now t.0.now t.1)) }
{
    let all = new.rows().depends.as_slice();
    let Some(found) = dependency_as(alloc, all, &difference.new)? else {
        return Ok(None);
    };
    match number_of(new, found.target.as_slice()) {
        None => Ok(None),
        Some(slot) => Ok(Some((found, slot))),
    }
}

/// The condition of the new guide that a difference writes.
fn condition_of<'g>(
    alloc: Global,
    new: &'g Guide,
    difference: &Difference,
) -> Result<Option<&'g Condition>, NoMemory>
    ensures { IfOk result (λ found. IfSome found (λ c. difference.now.new ≡ condition_value c.now)) }
{
    match new.slot(difference.at.node) {
        None => Ok(None),
        Some(slot) => condition_as(alloc, slot.conditions.as_slice(), &difference.new),
    }
}

/// The pair of levels of the old guide that a difference writes.
fn levels_of<'g>(
    alloc: Global,
    old: &'g Guide,
    difference: &Difference,
) -> Result<Option<&'g HlPair>, NoMemory>
    ensures { IfOk result (λ found. IfSome found (λ p. difference.now.old ≡ pair_value p.now)) }
{
    match &old.rows().hl {
        None => Ok(None),
        Some(rule) => pair_as(alloc, rule.pairs.as_slice(), &difference.old),
    }
}

/// What of the guides `old` and `new` a `difference` is of. A dependency or a condition that is gone, and a pair of levels that is new,
/// make no fault; of these it gives none. The only error is out of memory.
pub fn part_of<'g>(
    alloc: Global,
    old: &'g Guide,
    new: &'g Guide,
    difference: &Difference,
) -> Result<Option<Part<'g>>, NoMemory>
    ensures { IfOk result (λ found. IfSome found (IsPart (guide_of old.entry.now) (guide_of new.entry.now) difference.now)) }
{
    match difference.key {
        Key::Dependency => match target_of(alloc, new, difference)? {
            None => Ok(None),
            Some((found, slot)) => Ok(Some(Part::Target(found, slot))),
        },
        Key::Condition => match condition_of(alloc, new, difference)? {
            None => Ok(None),
            Some(found) => Ok(Some(Part::Condition(found))),
        },
        Key::Pair => match levels_of(alloc, old, difference)? {
            None => Ok(None),
            Some(found) => Ok(Some(Part::Levels(found))),
        },
        _ => Ok(Some(Part::Segment(id_of(old, new, difference)))),
    }
}
