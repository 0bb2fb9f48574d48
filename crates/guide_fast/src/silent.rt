ghost use Rattle.std.specs.Prelude.{◌≡◌, ◌+◌, ◌-◌, ◌<◌, ◌≤◌, ◌^◌, ◌&&◌, ℕ, List, length, drop};
ghost use Rattle.std.specs.List.{AllByRecursion};
ghost use Rattle.guide_tree.specs.Words.{view, nodes_view, past, too_few, unused, entered, ended_in, step_faults, end_faults};
ghost use Rattle.loop_match.specs.Leaving.{ended_among, stepped_among};
ghost use Rattle.loop_match.specs.Steps.{last_of, place_view};
ghost use Rattle.guide_fast.specs.Silent.{are_none};
ghost use Rattle.guide_fast.specs.Tables.{trees_in, HasTables, HasTablesIn};

use crate::children::Children;
use crate::next::{node_at, table_of};
use guide_tree::Node;
use loop_match::{Step, max_of, min_of};

fn is_enough(uses: u64, node: &Node) -> bool
    ensures { (at : ℕ) (outer : List ℕ) → result ≡ are_none (too_few at outer uses (view node.now)) }
{
    let few = uses < u64::from(min_of(node));
    !few
}

fn is_allowed(use_no: u64, node: &Node) -> bool
    ensures { (at : ℕ) (outer : List ℕ) → result ≡ are_none (past at outer use_no (view node.now)) }
{
    let many = u64::from(max_of(node)) <= use_no;
    !many
}

fn both(one: bool, other: bool) -> bool
    ensures { result ≡ (one && other) }
{
    one && other
}

/// Whether nothing is reported where none of the nodes from `from` on comes.
fn is_unused_silent(here: &Children, from: usize) -> bool
    requires { from ≤ length here.now }
    ensures { (at : ℕ) (outer : List ℕ) → result ≡ are_none (unused at outer (nodes_view (drop from here.now))) }
{
    here.needed_between(from, here.nodes().len()) == 0
}

/// Whether nothing is reported where the nodes from `from` on up to a child are passed over, and the child has a use.
fn is_entered_silent(here: &Children, from: usize, to: Step) -> bool
    requires order { from ≤ to.child }
    requires bound { from ≤ length here.now }
    ensures { (at : ℕ) (outer : List ℕ)
        → result ≡ are_none (entered at outer (nodes_view (drop from here.now)) (to.child - from) to.use_no) }
{
    let nodes = here.nodes();
    if to.child >= nodes.len() {
        return is_unused_silent(here, from);
    }
    let node = &nodes[to.child];
    let none = here.needed_between(from, to.child) == 0;
    both(none, is_allowed(to.use_no, node))
}

/// Whether nothing is reported where a child ends with these uses, and none after it comes.
fn is_left_silent(here: &Children, node: &Node, step: Step) -> bool
    requires room { step.use_no + 1 < 2 ^ 64 }
    requires bound { step.child < length here.now }
    ensures { (at : ℕ) (outer : List ℕ) → result ≡ (are_none (too_few at outer (step.use_no + 1) (view node.now))
        && are_none (unused at outer (nodes_view (drop (step.child + 1) here.now)))) }
{
    let nodes = here.nodes();
    if step.child >= nodes.len() {
        return true;
    }
    both(
        is_enough(step.use_no + 1, node),
        is_unused_silent(here, step.child + 1),
    )
}

/// Whether nothing is reported where the nodes in which a place is end.
fn is_ended_silent<'t, 'g>(
    tables: &'t [Children<'g>],
    here: &'t Children<'g>,
    place: &[Step],
) -> bool
    requires room { AllByRecursion (λ s. s.use_no + 1 < 2 ^ 64) place.now }
    requires tables { HasTables (trees_in tables.now) (nodes_view here.now) }
    ensures { (at : ℕ) (outer : List ℕ)
        → result ≡ are_none (ended_among at outer (nodes_view here.now) (place_view place.now)) }
{
    let Some((step, rest)) = place.split_first() else {
        return true;
    };
    let Some(node) = node_at(tables, here, step.child) else {
        return true;
    };
    let left = is_left_silent(here, node, *step);
    match table_of(tables, node) {
        None => left,
        Some(inner) => both(left, is_ended_silent(tables, inner, rest)),
    }
}

/// Whether nothing is reported where a place inside a node ends.
fn is_ended_inside_silent<'t, 'g>(tables: &'t [Children<'g>], node: &Node, place: &[Step]) -> bool
    requires room { AllByRecursion (λ s. s.use_no + 1 < 2 ^ 64) place.now }
    requires tables { HasTablesIn (trees_in tables.now) (view node.now) }
    ensures { (at : ℕ) → result ≡ are_none (ended_in at (view node.now) (place_view place.now)) }
{
    match table_of(tables, node) {
        None => true,
        Some(inner) => is_ended_silent(tables, inner, place),
    }
}

/// Whether nothing is reported from a place in a child to a later child.
fn is_later_silent<'t, 'g>(
    tables: &'t [Children<'g>],
    here: &'t Children<'g>,
    node: &Node,
    rest: &[Step],
    from: Step,
    to: Step,
) -> bool
    requires order { from.child < to.child }
    requires bound { from.child < length here.now }
    requires few { from.use_no + 1 < 2 ^ 64 }
    requires room { AllByRecursion (λ s. s.use_no + 1 < 2 ^ 64) rest.now }
    requires tables { HasTablesIn (trees_in tables.now) (view node.now) }
    ensures { (at : ℕ) (outer : List ℕ) → result ≡ (are_none (ended_in at (view node.now) (place_view rest.now))
        && (are_none (too_few at outer (from.use_no + 1) (view node.now))
        && are_none (entered at outer (nodes_view (drop (from.child + 1) here.now)) (to.child - (from.child + 1)) to.use_no))) }
{
    both(
        is_ended_inside_silent(tables, node, rest),
        both(
            is_enough(from.use_no + 1, node),
            is_entered_silent(here, from.child + 1, to),
        ),
    )
}

/// Whether nothing is reported from a place in a child to a further use of it.
fn is_again_silent<'t, 'g>(
    tables: &'t [Children<'g>],
    node: &Node,
    rest: &[Step],
    use_no: u64,
) -> bool
    requires room { AllByRecursion (λ s. s.use_no + 1 < 2 ^ 64) rest.now }
    requires tables { HasTablesIn (trees_in tables.now) (view node.now) }
    ensures { (at : ℕ) (outer : List ℕ) → result ≡ (are_none (ended_in at (view node.now) (place_view rest.now))
        && are_none (past at outer use_no (view node.now))) }
{
    both(
        is_ended_inside_silent(tables, node, rest),
        is_allowed(use_no, node),
    )
}

/// Whether nothing is reported from a place among the nodes of one parent to one that follows it.
pub(crate) fn is_stepped_silent<'t, 'g>(
    tables: &'t [Children<'g>],
    here: &'t Children<'g>,
    last: &[Step],
    next: &[Step],
) -> bool
    requires room { AllByRecursion (λ s. s.use_no + 1 < 2 ^ 64) last.now }
    requires tables { HasTables (trees_in tables.now) (nodes_view here.now) }
    ensures { (at : ℕ) (outer : List ℕ) → result
        ≡ are_none (stepped_among at outer (nodes_view here.now) (place_view last.now) (place_view next.now)) }
{
    let Some((from, rest)) = last.split_first() else {
        return true;
    };
    let Some((to, next_rest)) = next.split_first() else {
        return true;
    };
    let Some(node) = node_at(tables, here, from.child) else {
        return true;
    };
    if to.child < from.child {
        return true;
    }
    if from.child < to.child {
        return is_later_silent(tables, here, node, rest, *from, *to);
    }
    if to.use_no != from.use_no {
        return is_again_silent(tables, node, rest, to.use_no);
    }
    match table_of(tables, node) {
        None => true,
        Some(inner) => is_stepped_silent(tables, inner, rest, next_rest),
    }
}

/// Whether nothing is reported at a segment that is placed, from the last place, or from the beginning where it has no step.
pub(crate) fn is_silent<'t, 'g>(
    tables: &'t [Children<'g>],
    top: &'t Children<'g>,
    last: &[Step],
    next: &[Step],
) -> bool
    requires room { AllByRecursion (λ s. s.use_no + 1 < 2 ^ 64) last.now }
    requires tables { HasTables (trees_in tables.now) (nodes_view top.now) }
    ensures { (at : ℕ) → result
        ≡ are_none (step_faults at (nodes_view top.now) (last_of (place_view last.now)) (place_view next.now)) }
{
    let Some((to, _)) = next.split_first() else {
        return true;
    };
    if last.is_empty() {
        return is_entered_silent(top, 0, *to);
    }
    is_stepped_silent(tables, top, last, next)
}

/// Whether nothing is reported after the body.
pub(crate) fn is_end_silent<'t, 'g>(
    tables: &'t [Children<'g>],
    top: &'t Children<'g>,
    last: &[Step],
) -> bool
    requires room { AllByRecursion (λ s. s.use_no + 1 < 2 ^ 64) last.now }
    requires tables { HasTables (trees_in tables.now) (nodes_view top.now) }
    ensures { (at : ℕ) → result ≡ are_none (end_faults at (nodes_view top.now) (last_of (place_view last.now))) }
{
    if last.is_empty() {
        return is_unused_silent(top, 0);
    }
    is_ended_silent(tables, top, last)
}
