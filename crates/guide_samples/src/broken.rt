ghost use Rattle.std.specs.Prelude.{◌≡◌, IsTrue, [], IfOk, IfSome, map};
ghost use Rattle.guide_tree.specs.Words.{guide_of};
ghost use Rattle.guide_samples.specs.Samples.{HasOneFault, IsFaultOf, IsKnown, IsSampled};

use crate::build::Piece;
use crate::judge::{meets, only_fault};
use crate::node_trials::push_nodes;
use crate::plan::Plan;
use crate::rule::Rule;
use crate::samples::sample_pieces;
use crate::set_trials::push_set;
use crate::trial::{Sample, Trial};
use crate::write::text_of;
use guide_tree::Guide;
use hub_kinds::{NoMemory, Text};
use std::alloc::Global;
use std::marker::Model;

/// A text whose set breaks one rule of a guide, and what the 999 says of it.
#[derive(Debug, Drop)]
pub struct Broken {
    pub text: Text,
    pub lines: Text,
}

/// The rules of a guide that are tried, in the guide's order, each by a change of one sample.
#[derive(Drop)]
pub struct Rules<'g> {
    guide: &'g Guide,
    pieces: Vec<Piece<'g>>,
    trials: Vec<Trial>,
}

impl<'g> Model for Rules<'g> {
    ghost use Rattle.std.specs.Prelude.{map};
    ghost use Rattle.std.specs.Coded.{codes};
    ghost use Rattle.guide_tree.specs.contracts.node.Node as node;
    ghost use Rattle.guide_samples.specs.Samples.{IsSampled, Tried};
    ghost use Rattle.guide_tree.specs.Words.{guide_of};

    ghost Value = { Tried };

    ghost coded = { Prim.hlevel (codes, node.the_row.coded) };

    ghost view = { λ r. record { guide = r.guide.now; rules = map (λ t. t.expected.rule) r.trials.items } };
}

impl<'g> Rules<'g> {
    ghost use Rattle.std.specs.Prelude.{◌≡◌, IfOk, IfSome, length};
    ghost use Rattle.guide_tree.specs.Words.{guide_of};
    ghost use Rattle.guide_samples.specs.Samples.{BreaksRule, IsSampled};

    /// The rules of `guide` that are tried: none if no sample of it is known. A rule takes as much memory as its segment. The only error
    /// is out of memory.
    pub fn new(alloc: Global, guide: &'g Guide) -> Result<Rules<'g>, NoMemory>
        ensures guide { IfOk result (λ rules. rules.guide ≡ guide.entry.now) }
        ensures sampled { IfOk result (λ rules. IsSampled (guide_of rules.guide) rules.rules) }
    {
        let found = with_sample(alloc, guide, true)?;
        if !found.trials.is_empty() {
            return Ok(found);
        }
        with_sample(alloc, guide, false)
    }

    /// How many rules are tried.
    pub fn count(&self) -> usize
        ensures { result ≡ length self.now.rules }
    {
        self.trials.len()
    }

    /// The text that breaks the rule with a `number`, from 0, and no other, and what the 999 says of it; none if the change that is known
    /// for it breaks no rule, another one, or more than one. It costs one check of the text. The only error is out of memory.
    pub fn broken(&self, alloc: Global, number: usize) -> Result<Option<Broken>, NoMemory>
        ensures { IfOk result (λ found. IfSome found (λ b. BreaksRule (guide_of self.now.guide) self.now.rules number b.text b.lines)) }
    {
        match self.trials.get(number) {
            None => Ok(None),
            Some(trial) => broken_by(alloc, self.guide, self.pieces.as_slice(), trial),
        }
    }
}

/// The text of a trial and what the 999 says of it, if it has the fault that is expected, and no other.
fn broken_by(
    alloc: Global,
    guide: &Guide,
    pieces: &[Piece],
    trial: &Trial,
) -> Result<Option<Broken>, NoMemory>
    ensures { IfOk result (λ found. IfSome found
        (λ b. HasOneFault (guide_of guide.now) (IsFaultOf trial.now.expected.rule) b.text b.lines)) }
{
    let text = text_of(alloc, guide.rows(), pieces, trial.changes.as_slice())?;
    match only_fault(alloc, text.as_slice(), guide, &trial.expected)? {
        Some(lines) => Ok(Some(Broken { text, lines })),
        None => Ok(None),
    }
}

/// The rules of a guide with the sample that is changed for them, if it meets the guide; no rules otherwise.
fn with_sample<'g>(alloc: Global, guide: &'g Guide, full: bool) -> Result<Rules<'g>, NoMemory>
    ensures guide { IfOk result (λ rules. rules.guide ≡ guide.entry.now) }
    ensures sampled { IfOk result (λ rules. IsSampled (guide_of rules.guide) rules.rules) }
{
    let plan = Plan::new(alloc, guide, full)?;
    let pieces = match sample_pieces(alloc, &plan)? {
        None => Vec::new(alloc),
        Some(pieces) => pieces,
    };
    let trials = trials_of(alloc, guide, &plan, pieces.as_slice())?;
    Ok(Rules {
        guide,
        pieces,
        trials,
    })
}

/// Whether the text of pieces meets the guide.
fn is_sample(alloc: Global, guide: &Guide, pieces: &[Piece]) -> Result<bool, NoMemory>
    ensures { IfOk result (λ yes. IsTrue yes → IsKnown (guide_of guide.now)) }
{
    let text = text_of(alloc, guide.rows(), pieces, &[])?;
    meets(alloc, text.as_slice(), guide)
}

/// The trials of a guide by a sample, if it meets the guide.
fn trials_of(
    alloc: Global,
    guide: &Guide,
    plan: &Plan,
    pieces: &[Piece],
) -> Result<Vec<Trial>, NoMemory>
    ensures { IfOk result (λ trials. IsSampled (guide_of guide.now) (map (λ t. t.expected.rule) trials.items)) }
{
    if !is_sample(alloc, guide, pieces)? {
        return Ok(Vec::new(alloc));
    }
    let mut trials = Vec::new(alloc);
    let sample = Sample { plan, pieces };
    push_nodes(
        alloc,
        &mut trials,
        &sample,
        plan.rows.nodes.as_slice(),
        false,
    )?;
    push_set(alloc, &mut trials, guide, &sample)?;
    Ok(trials)
}
