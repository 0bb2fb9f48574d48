ghost use Rattle.std.specs.Prelude.{◌≡◌, ℕ, List, [], map, IfOk};
ghost use Rattle.hub_kinds.specs.Words.{has_twice};
ghost use Rattle.partner_setup.specs.SetupFaults as faults;

use crate::rows::{CounterRow, PartnerRow, RouteRow};
use crate::told::{Told, by_name};
use guide_tree::Guide;
use hub_kinds::{NoMemory, Text, has_twice};
use std::alloc::Global;
use std::collections::BTreeSet;

/// What rows are distinguished by.
pub trait Tells {
    type Row;

    /// What distinguishes a row from others.
    ghost tells: { Self.Row → List ℕ };

    /// What distinguishes a row from others.
    fn tell<'a>(row: &'a Self::Row) -> Told<'a>
        ensures { faults.key_of_texts result.first.now result.second.now result.third.now ≡ tells row.entry.now };
}

/// Partners by their names.
pub struct PartnerName;

impl Tells for PartnerName {
    type Row = PartnerRow;

    ghost tells = { λ p. faults.by_name p.name };

    fn tell<'a>(row: &'a PartnerRow) -> Told<'a> {
        by_name(row.name.as_slice())
    }
}

/// Partners by their qualifiers and ids.
pub struct PartnerId;

impl Tells for PartnerId {
    type Row = PartnerRow;

    ghost tells = { λ p. faults.key_of_texts p.qualifier p.id [] };

    fn tell<'a>(row: &'a PartnerRow) -> Told<'a> {
        Told {
            first: row.qualifier.as_slice(),
            second: row.id.as_slice(),
            third: &[],
        }
    }
}

/// Routes by their codes.
pub struct RouteCode;

impl Tells for RouteCode {
    type Row = RouteRow;

    ghost tells = { λ r. faults.by_name r.code };

    fn tell<'a>(row: &'a RouteRow) -> Told<'a> {
        by_name(row.code.as_slice())
    }
}

/// The targets of a route by their names.
pub struct TargetName;

impl Tells for TargetName {
    type Row = Text;

    ghost tells = { faults.by_name };

    fn tell<'a>(row: &'a Text) -> Told<'a> {
        by_name(row.as_slice())
    }
}

/// Counters by their partners.
pub struct CounterPartner;

impl Tells for CounterPartner {
    type Row = CounterRow;

    ghost tells = { λ c. faults.by_name c.partner };

    fn tell<'a>(row: &'a CounterRow) -> Told<'a> {
        by_name(row.partner.as_slice())
    }
}

/// Guides by their names.
pub struct GuideName;

impl Tells for GuideName {
    type Row = Guide;

    ghost tells = { λ g. faults.by_name (faults.guide_name g) };

    fn tell<'a>(row: &'a Guide) -> Told<'a> {
        by_name(row.rows().head.name.as_slice())
    }
}

fn told_apart<'a, K: Tells>(alloc: Global, rows: &'a [K::Row]) -> Result<Vec<Told<'a>>, NoMemory>
    ensures { IfOk result (λ told. map (λ t. faults.key_of_texts t.first.now t.second.now t.third.now) told.items
        ≡ map K.tells rows.entry.now) }
{
    let mut told = Vec::new(alloc);
    for i in 0..rows.len() {
        told.push(K::tell(&rows[i]))?;
    }
    Ok(told)
}

/// Whether two rows can't be distinguished.
pub(crate) fn given_twice<K: Tells>(alloc: Global, rows: &[K::Row]) -> Result<bool, NoMemory>
    ensures { IfOk result (λ twice. twice ≡ has_twice K.tells rows.now) }
{
    Ok(has_twice(told_apart::<K>(alloc, rows)?))
}

/// The place of the first row that can't be distinguished from one after it.
pub(crate) fn first_twin<'a, K: Tells>(
    alloc: Global,
    rows: &'a [K::Row],
) -> Result<Option<usize>, NoMemory>
    ensures { IfOk result (λ place. place ≡ faults.first_twin K.tells rows.entry.now) }
{
    let mut behind = BTreeSet::new(alloc);
    let mut twin = None;
    for count in 0..rows.len() {
        let i = rows.len() - 1 - count;
        if !behind.insert(K::tell(&rows[i]))? {
            twin = Some(i);
        }
    }
    Ok(twin)
}
