ghost use Rattle.std.specs.Prelude.{◌≡◌, ℕ, ◌<◌, ◌≤◌, length, List, IfOk};
ghost use Rattle.env_marks.specs.Laws.{joined_all, values};
ghost use Rattle.cut_plan.specs.Plan.{Plan, IsPlan, pieces};

use crate::piecewise::Piecewise;
use hub_kinds::NoMemory;
use std::alloc::Global;

/// The value of all pieces, from those of each in order. However the items were cut, it is the value of them all. The only error
/// is out of memory.
pub fn gather<P: Piecewise>(alloc: Global, list: Vec<P>) -> Result<P, NoMemory>
    requires { 0 < length list.items }
    ensures { (under : P.Under) (items : List P.Item) (plan : Plan) → IsPlan plan → plan.text_len ≤ length items
        → list.items ≡ values P.value under items (pieces plan) → IfOk result (λ all. all ≡ P.value under items 0 plan.text_len) }
{
    let mut rest = list;
    let first = rest.remove(0);
    let all = join_all(alloc, first, rest)?;
    Ok(all)
}

/// Joins a value with those after it.
fn join_all<P: Piecewise>(alloc: Global, first: P, rest: Vec<P>) -> Result<P, NoMemory>
    ensures { IfOk result (λ all. all ≡ joined_all P.joined first rest.items) }
{
    let mut all = first;
    for piece in rest {
        all = all.join(alloc, piece)?;
    }
    Ok(all)
}
