ghost use Rattle.std.specs.Prelude.{◌≡◌, ◌≤◌, ◌++◌, ◌+◌, ◌∷◌, [], IfOk, OnOk, count_by, length};
ghost use Rattle.std.specs.List.{flat_map};
ghost use Rattle.mailbox.specs.Deliveries.{is_held};
ghost use Rattle.night_report.specs.Report as report;

use crate::lines::append_held_line;
use crate::named::partner_name;
use hub_kinds::NoMemory;
use mailbox::Outcome;
use partner_setup::Setup;

/// How often a set is held by an outcome.
fn held_by(outcome: Outcome) -> u128
    ensures value { result ≡ count_by is_held (outcome ∷ []) }
    ensures most { result ≤ 1 }
{
    match outcome {
        Outcome::DeliveredTo(_) => 0,
        Outcome::HeldForDelimiter(_) => 1,
        Outcome::HeldForRoute => 1,
    }
}

/// Writes what is reported of an outcome.
fn append_outcome(
    out: &mut Vec<u8>,
    setup: &Setup,
    ordinal: u128,
    outcome: Outcome,
) -> Result<(), NoMemory>
    ensures text { OnOk result (out.new.items ≡ out.old.items ++ report.outcome_line setup.now ordinal outcome) }
    ensures room { OnOk result (length out.old.items + count_by is_held (outcome ∷ []) ≤ length out.new.items) }
{
    match outcome {
        Outcome::DeliveredTo(_) => Ok(()),
        Outcome::HeldForDelimiter(to) => {
            let name = partner_name(setup, to);
            append_held_line(out, ordinal, &[b"delimiter".as_slice(), name])
        }
        Outcome::HeldForRoute => append_held_line(out, ordinal, &[b"route".as_slice()]),
    }
}

/// Writes a line for each time that set number `ordinal` of a group is held by its outcomes, and gives how often it is.
pub(crate) fn append_held_lines(
    out: &mut Vec<u8>,
    setup: &Setup,
    ordinal: u128,
    outcomes: &[Outcome],
) -> Result<u128, NoMemory>
    ensures text { OnOk result (out.new.items ≡ out.old.items ++ flat_map (report.outcome_line setup.now ordinal) outcomes.now) }
    ensures held { IfOk result (λ held. held ≡ count_by is_held outcomes.now) }
    ensures room { IfOk result (λ held. length out.old.items + held ≤ length out.new.items) }
{
    let mut held = 0u128;
    for outcome in outcomes {
        append_outcome(out, setup, ordinal, *outcome)?;
        held += held_by(*outcome);
    }
    Ok(held)
}
