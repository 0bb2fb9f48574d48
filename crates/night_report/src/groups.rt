ghost use Rattle.std.specs.Prelude.{◌≡◌, ◌++◌, ◌+◌, ◌<◌, ◌≤◌, ℕ, IfOk, OnOk, length};
ghost use Rattle.std.specs.List.{flat_map};
ghost use Rattle.answered_sets.specs.Judged.{sets_of, standing_at};
ghost use Rattle.mailbox.specs.Deliveries.{outcomes_of};
ghost use Rattle.night_report.specs.Adding as adding;
ghost use Rattle.night_report.specs.Report as report;
ghost use Rattle.night_report.specs.Room.{HasRoom, IsOfInterchanges};

use crate::held::append_held_lines;
use crate::lines::{append_answered_line, append_fa_line};
use crate::totals::Totals;
use answered_sets::{GroupStanding, JudgedInterchange, is_fa};
use env_index::GroupEnvelope;
use hub_kinds::{GroupVerdict, NoMemory};
use mailbox::SetOutcomes;
use partner_setup::Setup;

/// The verdict on group `n` of an interchange with these `standings` (999 guide, AK901); rejected if it has no such group.
pub fn verdict_at(standings: &[GroupStanding], n: usize) -> GroupVerdict
    ensures { result ≡ (standing_at standings.now n).verdict }
{
    match standings.get(n) {
        Some(standing) => standing.verdict,
        None => GroupVerdict::Rejected,
    }
}

/// How many sets of group `n` are accepted (AK904).
fn accepted_at(standings: &[GroupStanding], n: usize) -> u64
    ensures { result ≡ (standing_at standings.now n).accepted }
{
    match standings.get(n) {
        Some(standing) => standing.accepted,
        None => 0,
    }
}

/// Group `n`, counted from 0.
fn group_at<'i, 'a>(interchange: &JudgedInterchange<'i, 'a>, n: usize) -> GroupEnvelope<'i, 'a>
    requires { n < length interchange.now.interchange.content.groups }
    ensures { result ≡ (adding.shown_at interchange.now n).group }
{
    interchange.interchange().group(n)
}

/// Writes the line of group `n`.
fn append_group_line(
    out: &mut Vec<u8>,
    group: &GroupEnvelope<'_, '_>,
    standings: &[GroupStanding],
    n: usize,
) -> Result<(), NoMemory>
    ensures text { OnOk result (out.new.items
        ≡ out.old.items ++ report.group_line group.now (standing_at standings.now n)) }
    ensures room { OnOk result (length out.old.items < length out.new.items) }
{
    let header = group.header();
    if is_fa(group) {
        return append_fa_line(out, header.element(6), group.set_count());
    }
    append_answered_line(
        out,
        header.element(1),
        header.element(6),
        verdict_at(standings, n),
        group.set_count(),
        accepted_at(standings, n),
    )
}

/// Writes a line for each time that a set of a group is held by these outcomes of its sets, and gives how often that is.
fn append_held_of_group(
    out: &mut Vec<u8>,
    setup: &Setup,
    outcomes: &[SetOutcomes],
) -> Result<u128, NoMemory>
    ensures text { OnOk result ((g : report.ShownGroup) → outcomes.now ≡ outcomes_of setup.now (report.placed_sets_in g)
        → out.new.items ≡ out.old.items ++ flat_map (report.held_lines setup.now) (report.placed_sets_in g)) }
    ensures held { IfOk result (λ held. (g : report.ShownGroup) → outcomes.now ≡ outcomes_of setup.now (report.placed_sets_in g)
        → held ≡ adding.held_in setup.now g) }
    ensures room { IfOk result (λ held. length out.old.items + held ≤ length out.new.items) }
{
    let mut held = 0u128;
    for i in 0..outcomes.len() {
        held += append_held_lines(out, setup, i as u128 + 1, outcomes[i].as_slice())?;
    }
    Ok(held)
}

/// What is counted of group `n`, of whose sets this many are held.
fn group_totals(
    group: &GroupEnvelope<'_, '_>,
    standings: &[GroupStanding],
    n: usize,
    held: u128,
) -> Totals
    ensures value { result ≡ adding.totals_with group.now (standing_at standings.now n) held }
    ensures room { (before behind : ℕ) → before + held + 1 ≤ behind → HasRoom result before behind }
    ensures of_none { IsOfInterchanges result 0 }
{
    if is_fa(group) {
        return Totals {
            interchanges: 0,
            refused: 0,
            groups: 0,
            sets: 0,
            accepted: 0,
            held,
        };
    }
    Totals {
        interchanges: 0,
        refused: 0,
        groups: 1,
        sets: group.set_count() as u128,
        accepted: u128::from(accepted_at(standings, n)),
        held,
    }
}

/// Writes the lines of group `n`, by the outcomes of its sets, and gives what is counted of it.
fn append_group(
    out: &mut Vec<u8>,
    setup: &Setup,
    interchange: &JudgedInterchange<'_, '_>,
    n: usize,
    outcomes: &[SetOutcomes],
) -> Result<Totals, NoMemory>
    requires group { n < length interchange.now.interchange.content.groups }
    requires outcomes { outcomes.now ≡ outcomes_of setup.now (report.placed_sets_in (adding.shown_at interchange.now n)) }
    ensures text { OnOk result (out.new.items
        ≡ out.old.items ++ report.group_lines setup.now (adding.shown_at interchange.now n)) }
    ensures totals { IfOk result (λ totals. totals ≡ adding.group_totals setup.now (adding.shown_at interchange.now n)) }
    ensures room { IfOk result (λ totals. HasRoom totals (length out.old.items) (length out.new.items)) }
    ensures of_none { IfOk result (λ totals. IsOfInterchanges totals 0) }
{
    let group = group_at(interchange, n);
    append_group_line(out, &group, interchange.standings(), n)?;
    let held = append_held_of_group(out, setup, outcomes)?;
    Ok(group_totals(&group, interchange.standings(), n, held))
}

/// Writes the lines of an interchange's groups, by the outcomes of its sets, and gives what is counted with them after what was counted
/// before.
pub(crate) fn append_groups(
    out: &mut Vec<u8>,
    setup: &Setup,
    interchange: &JudgedInterchange<'_, '_>,
    before: Totals,
    outcomes: &[SetOutcomes],
) -> Result<Totals, NoMemory>
    requires before { before ≡ adding.accepted_one }
    requires outcomes { outcomes.now ≡ outcomes_of setup.now (sets_of interchange.now) }
    ensures text { OnOk result (out.new.items ≡ out.old.items
        ++ flat_map (report.group_lines setup.now) (report.shown_from interchange.now 0 interchange.now.interchange.content.groups)) }
    ensures totals { IfOk result (λ totals. totals ≡ adding.added (adding.group_totals setup.now) before
        (report.shown_from interchange.now 0 interchange.now.interchange.content.groups)) }
    ensures room { IfOk result (λ totals. HasRoom totals (length out.old.items) (length out.new.items)) }
    ensures of_one { IfOk result (λ totals. IsOfInterchanges totals 1) }
{
    let mut totals = before;
    let mut left = outcomes;
    for n in 0..interchange.interchange().group_count() {
        let (of_group, more) = left.split_at(group_at(interchange, n).set_count());
        totals = totals.with(&append_group(out, setup, interchange, n, of_group)?);
        left = more;
    }
    Ok(totals)
}
