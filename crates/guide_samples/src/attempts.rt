//! Texts that may show a difference of two guides. Each is a sample of one of the guides with a change; nothing is believed of it.
use crate::build::Piece;
use crate::node_trials::{push_nodes, push_numbered};
use crate::plan::{Forced, Plan};
use crate::samples::sample_pieces;
use crate::set_trials::push_set;
use crate::spot_trials::push_spot;
use crate::stray_trials::{push_gone, push_picked};
use crate::trial::{Expected, Sample, Trial};
use difference_faults::{is_element_code, is_gone, is_segment_code};
use guide_tree::{Dependency, DependencyKind, Guide, GuideRows};
use guide_widening::{Change, Difference, Key, Presence, Value};
use hub_kinds::NoMemory;
use std::alloc::Global;

/// How many samples are changed: the smallest of each guide that has what differs, and the complete one of each.
pub(crate) const ATTEMPTS: u8 = 4;

/// Two guides, a difference of them, and all their differences.
#[derive(Clone, Copy)]
pub(crate) struct Pair<'g, 'd> {
    pub old: &'g Guide,
    pub new: &'g Guide,
    pub difference: &'d Difference,
    pub all: &'d [Difference],
}

impl<'g, 'd> Pair<'g, 'd> {
    /// Whether the new guide has the node no more.
    fn is_gone(&self) -> bool {
        is_gone(self.difference.key, &self.difference.new)
    }
}

/// A sample, and the changes of it that are tried.
#[derive(Drop)]
pub(crate) struct Attempt<'g> {
    pub rows: &'g GuideRows,
    pub pieces: Vec<Piece<'g>>,
    pub trials: Vec<Trial>,
}

/// Asks a plan for an element of a node, or for the node; or bans it.
fn force(
    plan: &mut Plan,
    kind: DependencyKind,
    difference: &Difference,
    element: u64,
) -> Result<(), NoMemory> {
    plan.forced.push(Forced {
        kind,
        slot: difference.at.node,
        element: u32::try_from(element).unwrap_or(0),
    })?;
    Ok(())
}

/// Asks a plan for the node that differs, and for the element.
fn force_spot(plan: &mut Plan, guide: &Guide, difference: &Difference) -> Result<(), NoMemory> {
    if difference.key == Key::Dependency {
        return force_dependencies(plan, guide, guide.rows().depends.as_slice());
    }
    if difference.at.node == 0 {
        return Ok(());
    }
    force(plan, DependencyKind::Need, difference, 0)?;
    if difference.at.element == 0 || difference.key == Key::Presence {
        return Ok(());
    }
    force(
        plan,
        DependencyKind::Need,
        difference,
        difference.at.element,
    )
}

/// Asks a plan for the slot that a label names, and for an element of it.
fn force_label(plan: &mut Plan, guide: &Guide, label: &[u8], element: u32) -> Result<(), NoMemory> {
    let Some(slot) = guide.slot_labelled(label) else {
        return Ok(());
    };
    for position in [0, element] {
        plan.forced.push(Forced {
            kind: DependencyKind::Need,
            slot: slot.number,
            element: position,
        })?;
    }
    Ok(())
}

/// Asks a plan for the slots of dependencies and for their targets.
fn force_dependencies(
    plan: &mut Plan,
    guide: &Guide,
    dependencies: &[Dependency],
) -> Result<(), NoMemory> {
    for dependency in dependencies {
        force_label(plan, guide, dependency.slot.as_slice(), dependency.at)?;
        force_label(
            plan,
            guide,
            dependency.target.as_slice(),
            dependency.element,
        )?;
    }
    Ok(())
}

/// Asks a plan for what the old guide must have and the new one needn't, and bans what the old guide doesn't know.
fn fit_old(plan: &mut Plan, all: &[Difference]) -> Result<(), NoMemory> {
    for difference in all {
        if difference.change == Change::Wider && difference.at.component == 0 {
            fit_one(plan, difference)?;
        }
    }
    Ok(())
}

/// Asks a plan for what a wider difference lets a set do without, or bans what it newly takes.
fn fit_one(plan: &mut Plan, difference: &Difference) -> Result<(), NoMemory> {
    let element = difference.at.element;
    match (difference.key, &difference.old) {
        (Key::Node, _) => force(plan, DependencyKind::Ban, difference, 0),
        (Key::LeastUse, _) => force(plan, DependencyKind::Need, difference, 0),
        (Key::Presence, Value::Presence(Presence::Mandatory)) => {
            force(plan, DependencyKind::Need, difference, element)
        }
        (Key::Presence, _) => force(plan, DependencyKind::Ban, difference, element),
        _ => Ok(()),
    }
}

/// Whether a trial is expected to break what differs.
fn is_aimed(difference: &Difference, expected: &Expected) -> bool {
    let rule = &expected.rule;
    let is_there = difference.at.node == 0 || rule.slot == difference.at.node;
    is_there
        && match (difference.key, rule.element) {
            (Key::Dependency | Key::Condition | Key::Pair, _) => true,
            (_, None) => is_segment_code(difference.key, rule.code),
            (_, Some(code)) => is_element_code(difference.key, code),
        }
}

/// The trials of the new guide that break what differs.
fn aimed_trials(alloc: Global, pair: &Pair, sample: &Sample) -> Result<Vec<Trial>, NoMemory> {
    let mut all = Vec::new(alloc);
    let nodes = sample.plan.rows.nodes.as_slice();
    let number = pair.difference.at.node;
    if number == 0 {
        push_nodes(alloc, &mut all, sample, nodes, false)?;
        push_set(alloc, &mut all, pair.new, sample)?;
    } else {
        push_numbered(alloc, &mut all, sample, nodes, number, false)?;
    }
    all.retain(|trial| is_aimed(pair.difference, &trial.expected));
    Ok(all)
}

/// A sample of the new guide with changes that may show the difference.
fn new_attempt<'g>(
    alloc: Global,
    pair: &Pair<'g, '_>,
    full: bool,
) -> Result<Option<Attempt<'g>>, NoMemory> {
    let mut plan = Plan::new(alloc, pair.new, full)?;
    fit_old(&mut plan, pair.all)?;
    if !pair.is_gone() && !full {
        force_spot(&mut plan, pair.new, pair.difference)?;
    }
    let Some(pieces) = sample_pieces(alloc, &plan)? else {
        return Ok(None);
    };
    let sample = Sample {
        plan: &plan,
        pieces: pieces.as_slice(),
    };
    let trials = if pair.is_gone() {
        push_gone(alloc, pair, &sample)?
    } else {
        new_trials(alloc, pair, &sample)?
    };
    Ok(Some(Attempt {
        rows: plan.rows,
        pieces,
        trials,
    }))
}

/// Changes of a sample of the new guide, of what it has at the node that differs.
fn new_trials(alloc: Global, pair: &Pair, sample: &Sample) -> Result<Vec<Trial>, NoMemory> {
    let mut trials = aimed_trials(alloc, pair, sample)?;
    push_spot(alloc, &mut trials, pair, sample)?;
    if pair.difference.key == Key::Pick {
        push_picked(alloc, &mut trials, pair, sample)?;
    }
    Ok(trials)
}

/// A sample of the old guide as it is; of a node that is gone, one that has it.
fn old_attempt<'g>(
    alloc: Global,
    pair: &Pair<'g, '_>,
    full: bool,
) -> Result<Option<Attempt<'g>>, NoMemory> {
    let mut plan = Plan::new(alloc, pair.old, full)?;
    if pair.is_gone() && !full {
        force_spot(&mut plan, pair.old, pair.difference)?;
    }
    let Some(pieces) = sample_pieces(alloc, &plan)? else {
        return Ok(None);
    };
    let mut trials = Vec::new(alloc);
    trials.push(Trial {
        expected: Expected::of_segment(hub_kinds::SegmentCode::OutOfSequence, 0),
        changes: Vec::new(alloc),
    })?;
    Ok(Some(Attempt {
        rows: plan.rows,
        pieces,
        trials,
    }))
}

/// The attempt with a number below `ATTEMPTS`; none if the guide has no such sample.
pub(crate) fn attempt_of<'g>(
    alloc: Global,
    pair: &Pair<'g, '_>,
    number: u8,
) -> Result<Option<Attempt<'g>>, NoMemory> {
    match number {
        0 => new_attempt(alloc, pair, false),
        1 => old_attempt(alloc, pair, false),
        2 => new_attempt(alloc, pair, true),
        _ => old_attempt(alloc, pair, true),
    }
}
