ghost use Rattle.std.specs.Prelude.{◌≡◌, ◌-◌, ◌<◌, ◌≤◌, length, slice_index_or, IfOk};
ghost use Rattle.guide_tree.specs.Words.{view};
ghost use Rattle.guide_fast.specs.Needed.{is_needed, counts_from};

use guide_tree::Node;
use hub_kinds::NoMemory;
use loop_match::min_of;
use std::alloc::Global;

fn is_needed(node: &Node) -> bool
    ensures { result ≡ is_needed (view node.now) }
{
    1 <= min_of(node)
}

/// How many of the first nodes are needed: of none of them, of one, and so on up to all.
pub(crate) fn needed_counts(alloc: Global, nodes: &[Node]) -> Result<Vec<usize>, NoMemory>
    ensures { IfOk result (λ counts. counts.items ≡ counts_from 0 nodes.now) }
{
    let mut counts = Vec::new(alloc);
    let mut count = 0;
    for k in 0..nodes.len() {
        counts.push(count)?;
        if is_needed(&nodes[k]) {
            count += 1;
        }
    }
    counts.push(count)?;
    Ok(counts)
}

/// How much a count grows from one place to another.
pub(crate) fn count_between(counts: &[usize], from: usize, to: usize) -> usize
    requires order { from ≤ to }
    requires bound { to < length counts.now }
    requires rising { slice_index_or counts.now from 0 ≤ slice_index_or counts.now to 0 }
    ensures { result ≡ slice_index_or counts.now to 0 - slice_index_or counts.now from 0 }
{
    counts[to] - counts[from]
}
