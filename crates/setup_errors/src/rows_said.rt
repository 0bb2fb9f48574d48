//! What is wrong with each row of a setup or of counters, looked at by itself.
ghost use Rattle.std.specs.Prelude.{◌≡◌, ◌++◌, IfOk, OnOk, map};
ghost use Rattle.setup_errors.specs.Named.{partner_name};
ghost use Rattle.setup_errors.specs.RowsSaid as said;
ghost use Rattle.setup_errors.specs.Sentences.{text_of};

use crate::delimiters::delimiters_cause;
use crate::ids::{code_cause, hub_cause, partner_cause};
use crate::rows::{again_cause, cap_cause, number_cause, unknown_cause};
use crate::sentence::{Sentence, in_place, push_told};
use crate::words::{COUNTER_ROW, GROUP, HUB, INTERCHANGE, PARTNER, ROUTE, SET};
use guide_tree::Codes;
use hub_kinds::{Items, NoMemory, Text, copy_text};
use partner_setup::{CounterRow, PartnerRow, RouteRow, SetupRows};
use std::alloc::Global;

fn push_partner_lines(
    alloc: Global,
    found: &mut Vec<Text>,
    place: Sentence<'_>,
    partner: &PartnerRow,
) -> Result<(), NoMemory>
    ensures { OnOk result (found.new.items ≡ found.old.items ++ said.partner_lines (text_of place.entry) partner.now) }
{
    push_told(alloc, found, place, delimiters_cause(partner))?;
    push_told(alloc, found, place, partner_cause(partner))?;
    push_told(alloc, found, place, cap_cause(partner))
}

#[tactic(auto, unfolding(crate::specs::RowsSaid::partner_said))]
fn push_partner(
    alloc: Global,
    found: &mut Vec<Text>,
    number: u64,
    partner: &PartnerRow,
) -> Result<(), NoMemory>
    ensures { OnOk result (found.new.items ≡ found.old.items ++ said.partner_said number partner.now) }
{
    let place = in_place(PARTNER, number, partner.name.as_slice());
    push_partner_lines(alloc, found, place, partner)
}

fn push_partners(
    alloc: Global,
    found: &mut Vec<Text>,
    partners: &[PartnerRow],
) -> Result<(), NoMemory>
    ensures { OnOk result (found.new.items ≡ found.old.items ++ said.partners_said 1 partners.now) }
{
    for i in 0..partners.len() {
        push_partner(alloc, found, i as u64 + 1, &partners[i])?;
    }
    Ok(())
}

/// The names of partners, in an order by which one is found.
pub(crate) fn names_of(alloc: Global, partners: &[PartnerRow]) -> Result<Codes, NoMemory>
    ensures { IfOk result (λ names. names ≡ map partner_name partners.now) }
{
    let mut names = Vec::new(alloc);
    for i in 0..partners.len() {
        names.push(copy_text(alloc, partners[i].name.as_slice())?)?;
    }
    Codes::new(alloc, Items::from_vec(names))
}

fn push_route_lines(
    alloc: Global,
    found: &mut Vec<Text>,
    place: Sentence<'_>,
    names: &Codes,
    route: &RouteRow,
) -> Result<(), NoMemory>
    ensures { OnOk result (found.new.items ≡ found.old.items ++ said.route_lines (text_of place.entry) names.now route.now) }
{
    push_told(alloc, found, place, code_cause(route.code.as_slice()))?;
    push_told(alloc, found, place, unknown_cause(names, route))?;
    push_told(alloc, found, place, again_cause(route))
}

#[tactic(auto, unfolding(crate::specs::RowsSaid::route_said))]
fn push_route(
    alloc: Global,
    found: &mut Vec<Text>,
    names: &Codes,
    number: u64,
    route: &RouteRow,
) -> Result<(), NoMemory>
    ensures { OnOk result (found.new.items ≡ found.old.items ++ said.route_said names.now number route.now) }
{
    let place = in_place(ROUTE, number, route.code.as_slice());
    push_route_lines(alloc, found, place, names, route)
}

fn push_routes(
    alloc: Global,
    found: &mut Vec<Text>,
    names: &Codes,
    routes: &[RouteRow],
) -> Result<(), NoMemory>
    ensures { OnOk result (found.new.items ≡ found.old.items ++ said.routes_said names.now 1 routes.now) }
{
    for i in 0..routes.len() {
        push_route(alloc, found, names, i as u64 + 1, &routes[i])?;
    }
    Ok(())
}

/// Adds what is wrong with each row of a setup: the hub, then the partners, then the routes. The only error is out of memory.
pub fn push_setup_said(
    alloc: Global,
    found: &mut Vec<Text>,
    rows: &SetupRows,
) -> Result<(), NoMemory>
    ensures { OnOk result (found.new.items ≡ found.old.items ++ said.setup_said rows.now) }
{
    let names = names_of(alloc, rows.partners.as_slice())?;
    push_told(alloc, found, Sentence::Plain(HUB), hub_cause(&rows.hub))?;
    push_partners(alloc, found, rows.partners.as_slice())?;
    push_routes(alloc, found, &names, rows.routes.as_slice())
}

fn push_counter_lines(
    alloc: Global,
    found: &mut Vec<Text>,
    place: Sentence<'_>,
    counter: &CounterRow,
) -> Result<(), NoMemory>
    ensures { OnOk result (found.new.items ≡ found.old.items ++ said.counter_lines (text_of place.entry) counter.now) }
{
    let numbers = counter.counters;
    push_told(
        alloc,
        found,
        place,
        number_cause(INTERCHANGE, numbers.interchange),
    )?;
    push_told(alloc, found, place, number_cause(GROUP, numbers.group))?;
    push_told(alloc, found, place, number_cause(SET, numbers.set))
}

#[tactic(auto, unfolding(crate::specs::RowsSaid::counter_said))]
fn push_counter(
    alloc: Global,
    found: &mut Vec<Text>,
    number: u64,
    counter: &CounterRow,
) -> Result<(), NoMemory>
    ensures { OnOk result (found.new.items ≡ found.old.items ++ said.counter_said number counter.now) }
{
    let place = in_place(COUNTER_ROW, number, counter.partner.as_slice());
    push_counter_lines(alloc, found, place, counter)
}

/// Adds what is wrong with each row of counters. The only error is out of memory.
pub fn push_counters_said(
    alloc: Global,
    found: &mut Vec<Text>,
    counters: &[CounterRow],
) -> Result<(), NoMemory>
    ensures { OnOk result (found.new.items ≡ found.old.items ++ said.counters_said 1 counters.now) }
{
    for i in 0..counters.len() {
        push_counter(alloc, found, i as u64 + 1, &counters[i])?;
    }
    Ok(())
}
