ghost use Rattle.std.specs.Prelude.{◌≡◌, map, IfOk};
ghost use Rattle.ack_999.specs.Group.{totals_of, verdicts_of};
ghost use Rattle.ack_999.specs.Report.{accepted_sets};
ghost use Rattle.answered_sets.specs.Judged.{no_standing};
ghost use Rattle.set_answers.specs.Standings.{standing_by, standing_of};

use crate::answered::AnsweredGroup;
use ack_999::{accepted_sets, totals_of};
use answered_sets::GroupStanding;
use hub_kinds::{GroupAnswer, GroupVerdict, Items, NoMemory, SetAnswer, Verdict};
use std::alloc::Global;

/// The standings of the groups of an interchange, in their order.
pub(crate) fn standings_of(
    alloc: Global,
    groups: &[Option<AnsweredGroup<'_>>],
) -> Result<Items<GroupStanding>, NoMemory>
    ensures { IfOk result (λ standings. standings ≡ map standing_by groups.now) }
{
    let mut standings = Vec::new(alloc);
    for group in groups {
        standings.push(standing_by(alloc, group)?)?;
    }
    Ok(Items::from_vec(standings))
}

/// The standing of a group; of one that acknowledges something itself nothing is known.
fn standing_by(alloc: Global, group: &Option<AnsweredGroup<'_>>) -> Result<GroupStanding, NoMemory>
    ensures { IfOk result (λ standing. standing ≡ standing_by group.now) }
{
    match group {
        None => Ok(no_standing(alloc)),
        Some(group) => standing_of(alloc, group),
    }
}

fn no_standing(alloc: Global) -> GroupStanding
    ensures { result ≡ no_standing }
{
    GroupStanding {
        clear: false,
        verdict: GroupVerdict::Rejected,
        accepted: 0,
        verdicts: Items::from_vec(Vec::new(alloc)),
    }
}

fn standing_of(alloc: Global, group: &AnsweredGroup<'_>) -> Result<GroupStanding, NoMemory>
    ensures { IfOk result (λ standing. standing ≡ standing_of group.now) }
{
    let verdicts = verdicts_of(alloc, group.sets.as_slice())?;
    Ok(GroupStanding {
        clear: group.answer.codes.as_slice().is_empty(),
        verdict: group.answer.verdict,
        accepted: accepted_in(&group.answer, group.sets.as_slice()),
        verdicts: Items::from_vec(verdicts),
    })
}

/// AK904: a group has fewer than 2^64 sets.
fn accepted_in(group: &GroupAnswer<'_>, sets: &[SetAnswer<'_>]) -> u64
    ensures { result ≡ accepted_sets group.now.codes (totals_of sets.now) }
{
    let totals = totals_of(sets);
    accepted_sets(group, &totals) as u64
}

/// The verdicts on sets, in their order.
fn verdicts_of(alloc: Global, sets: &[SetAnswer<'_>]) -> Result<Vec<Verdict>, NoMemory>
    ensures { IfOk result (λ v. v.items ≡ verdicts_of sets.now) }
{
    let mut verdicts = Vec::new(alloc);
    for set in sets {
        verdicts.push(set.verdict)?;
    }
    Ok(verdicts)
}
