ghost use Rattle.std.specs.Prelude.{◌≡◌, ◌↔◌, List, ℕ};
ghost use Rattle.std.specs.List.{Contains};
ghost use Rattle.std.specs.Ordering.{eq_by_cmp};
ghost use Rattle.hub_kinds.specs.Rising.{order_by, IsRisingBy, IsKeyedBy};

use crate::fault::{ElemFault, Fault, element_fault_order, fault_order};
use std::cmp::Ordering;

/// A kind of values with an order by the numbers of a key.
pub trait Keyed: Sized {
    /// The numbers that it is ordered by, from first to last.
    ghost key: { Self → List ℕ };

    /// Which of two comes first.
    fn order(&self, other: &Self) -> Ordering
        ensures { result ≡ order_by key self.now other.now };
}

impl<'a> Keyed for Fault<'a> {
    ghost use Rattle.hub_kinds.specs.Fault.{key_of};

    ghost key = { key_of };

    fn order(&self, other: &Fault<'a>) -> Ordering {
        fault_order(self, other)
    }
}

impl<'a> Keyed for ElemFault<'a> {
    ghost use Rattle.hub_kinds.specs.Fault.{element_key_of};

    ghost key = { element_key_of };

    fn order(&self, other: &ElemFault<'a>) -> Ordering {
        element_fault_order(self, other)
    }
}

fn has_same_key<T: Keyed>(a: &T, b: &T) -> bool
    ensures { result ≡ eq_by_cmp (order_by T.key) a.now b.now }
{
    a.order(b).is_eq()
}

/// The values in the order of their keys, each once. No two different ones may share a key.
pub fn in_order<T: Keyed + Drop>(found: Vec<T>) -> Vec<T>
    requires { IsKeyedBy T.key found.items }
    ensures same { (x : T) → Contains result.items x ↔ Contains found.items x }
    ensures rising { IsRisingBy T.key result.items }
{
    let mut values = found;
    values.sort_unstable_by(|a, b| a.order(b));
    values.dedup_by(|next, kept| has_same_key(next, kept));
    values
}
