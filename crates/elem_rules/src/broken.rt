ghost use Rattle.std.specs.Prelude.{◌≡◌, ◌++◌, ◌<◌, ℕ, List, IfOk, All, take, drop};
ghost use Rattle.std.specs.List.{filter, flat_map};
ghost use Rattle.elem_rules.specs.Conditions.{absent, broken_at};
ghost use Rattle.elem_rules.specs.Clean.{is_set};
ghost use Rattle.elem_rules.specs.Marks.{AreBits, missing_at, excluded_at};

use crate::presence::{has_present, is_set, marked};
use guide_tree::{Condition, Relation};
use hub_kinds::NoMemory;
use std::alloc::Global;

/// The positions at which conditions are broken, as bits: bit k for element k.
#[derive(Clone, Copy)]
pub struct Broken {
    /// Where an element is missing.
    pub missing: u64,
    /// Where an element is too much.
    pub excluded: u64,
}

fn absent(alloc: Global, present: u64, positions: &[u32]) -> Result<Vec<u32>, NoMemory>
    ensures { IfOk result
        (λ v. v.items ≡ absent (is_set present) positions.now) }
{
    let absent = positions
        .iter()
        .copied()
        .filter(|position| !is_set(present, *position))
        .collect(alloc)?;
    Ok(absent)
}

/// Those that are present, but for the first of them.
fn too_many(alloc: Global, present: u64, positions: &[u32]) -> Result<Vec<u32>, NoMemory>
    ensures { IfOk result
        (λ v. v.items
        ≡ drop 1 (filter (is_set present) positions.now)) }
{
    let many = positions
        .iter()
        .copied()
        .filter(|position| is_set(present, *position))
        .skip(1)
        .collect(alloc)?;
    Ok(many)
}

/// The first position, where there is one.
fn first(alloc: Global, positions: &[u32]) -> Result<Vec<u32>, NoMemory>
    ensures { IfOk result (λ v. v.items ≡ take 1 positions.now) }
{
    let first = positions.iter().copied().take(1).collect(alloc)?;
    Ok(first)
}

/// At which positions a condition is broken.
fn broken_at(alloc: Global, present: u64, condition: &Condition) -> Result<Vec<u32>, NoMemory>
    ensures { IfOk result
        (λ v. v.items
        ≡ broken_at (is_set present) condition.now.relation condition.now.positions) }
{
    let positions = condition.positions.as_slice();
    let (head, others) = positions.split_at(positions.len().min(1));
    match condition.relation {
        Relation::Paired if has_present(present, positions) => absent(alloc, present, positions),
        Relation::Required if !has_present(present, positions) => first(alloc, positions),
        Relation::Exclusion => too_many(alloc, present, positions),
        Relation::Conditional if has_present(present, head) => absent(alloc, present, others),
        Relation::ListConditional if has_present(present, head) && !has_present(present, others) =>
            { first(alloc, others) }
        _ => Ok(Vec::new(alloc)),
    }
}

/// Bits with those of positions set.
pub(crate) fn marked_all(bits: u64, positions: &[u32]) -> u64
    requires { All (λ p. p < 64) positions.now }
    ensures { (listed : List ℕ) → AreBits bits listed → AreBits result (listed ++ positions.now) }
{
    let mut marks = bits;
    for position in positions {
        marks = marked(marks, *position, true);
    }
    marks
}

/// With the positions at which one more condition is broken.
fn with_condition(
    alloc: Global,
    broken: Broken,
    present: u64,
    condition: &Condition,
) -> Result<Broken, NoMemory>
    requires { All (λ p. p < 64) condition.now.positions }
    ensures missing { IfOk result
        (λ next. (listed : List ℕ) → AreBits broken.missing listed
        → AreBits next.missing (listed ++ missing_at (is_set present) condition.now)) }
    ensures excluded { IfOk result
        (λ next. (listed : List ℕ) → AreBits broken.excluded listed
        → AreBits next.excluded (listed ++ excluded_at (is_set present) condition.now)) }
{
    let at = broken_at(alloc, present, condition)?;
    match condition.relation {
        Relation::Exclusion => Ok(Broken {
            missing: broken.missing,
            excluded: marked_all(broken.excluded, at.as_slice()),
        }),
        Relation::Paired | Relation::Required | Relation::Conditional | Relation::ListConditional =>
            Ok(Broken {
                missing: marked_all(broken.missing, at.as_slice()),
                excluded: broken.excluded,
            }),
    }
}

/// The positions at which some of the conditions is broken, by the bits of the elements that are present.
pub(crate) fn broken_by(
    alloc: Global,
    present: u64,
    conditions: &[Condition],
) -> Result<Broken, NoMemory>
    requires { All (λ c. All (λ p. p < 64) c.positions) conditions.now }
    ensures missing { IfOk result
        (λ broken. AreBits broken.missing (flat_map (missing_at (is_set present)) conditions.now)) }
    ensures excluded { IfOk result
        (λ broken. AreBits broken.excluded (flat_map (excluded_at (is_set present)) conditions.now)) }
{
    let mut broken = Broken {
        missing: 0,
        excluded: 0,
    };
    for condition in conditions {
        broken = with_condition(alloc, broken, present, condition)?;
    }
    Ok(broken)
}
