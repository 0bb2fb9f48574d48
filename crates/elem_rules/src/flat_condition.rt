ghost use Rattle.std.specs.Prelude.{◌≡◌, ◌<◌, ℕ, All, IsTrue};
ghost use Rattle.guide_tree.specs.Words.{is_distinct};
ghost use Rattle.elem_rules.specs.Flat.{is_single, holds_by, IsFlatCondition};
ghost use Rattle.elem_rules.specs.Marks.{AreBits};

use crate::broken::marked_all;
use guide_tree::{Condition, Relation};

/// A relational condition by masks of the positions that it lists: bit k for element k.
#[derive(Clone, Copy, Debug)]
pub struct FlatCondition {
    pub relation: Relation,
    /// The first position, where the condition is one of the first alone; else none.
    pub first: u64,
    /// The others.
    pub rest: u64,
}

fn mask_of(positions: &[u32]) -> u64
    requires { All (λ p. p < 64) positions.now }
    ensures { AreBits result positions.now }
{
    marked_all(0, positions)
}

/// A condition as masks.
pub(crate) fn flat_condition_of(condition: &Condition) -> FlatCondition
    requires few { All (λ p. p < 64) condition.now.positions }
    requires distinct { IsTrue (is_distinct condition.now.positions) }
    ensures { IsFlatCondition result condition.now }
{
    let positions = condition.positions.as_slice();
    let (head, others) = positions.split_at(positions.len().min(1));
    match condition.relation {
        Relation::Paired | Relation::Required | Relation::Exclusion => FlatCondition {
            relation: condition.relation,
            first: 0,
            rest: mask_of(positions),
        },
        Relation::Conditional | Relation::ListConditional => FlatCondition {
            relation: condition.relation,
            first: mask_of(head),
            rest: mask_of(others),
        },
    }
}

/// Whether no more than one bit is set.
#[inline(always)]
fn is_single(bits: u64) -> bool
    ensures { result ≡ is_single bits }
{
    bits == 0 || bits == 1 << bits.trailing_zeros()
}

/// Whether a condition holds, by the bits of the elements that are present.
#[inline(always)]
pub(crate) fn holds_flat(condition: &FlatCondition, bits: u64) -> bool
    ensures { result ≡ holds_by condition.now.relation condition.now.first condition.now.rest bits }
{
    let rest = bits & condition.rest;
    match condition.relation {
        Relation::Paired => rest == 0 || rest == condition.rest,
        Relation::Required => rest != 0,
        Relation::Exclusion => is_single(rest),
        Relation::Conditional => bits & condition.first == 0 || rest == condition.rest,
        Relation::ListConditional => bits & condition.first == 0 || rest != 0,
    }
}
