ghost use Rattle.std.specs.Prelude.{◌≡◌, map, IfOk};
ghost use Rattle.setup_errors.specs.KeptRows as kept;

use guide_tree::Guide;
use hub_kinds::{Items, NoMemory, Text, Texts, copy_text};
use partner_setup::{CounterRow, CounterRows, HubRow, PartnerRow, RouteRow, SetupRows};
use std::alloc::Global;

/// What can be copied.
trait Copied: Drop {
    /// A copy of it.
    fn copied(&self, alloc: Global) -> Result<Self, NoMemory>
        ensures { IfOk result (λ copy. copy ≡ self.now) };
}

impl Copied for Text {
    fn copied(&self, alloc: Global) -> Result<Text, NoMemory> {
        copy_text(alloc, self.as_slice())
    }
}

fn copies_of<T: Copied>(alloc: Global, rows: &[T]) -> Result<Items<T>, NoMemory>
    ensures { IfOk result (λ copies. copies ≡ rows.now) }
{
    let mut copies = Vec::new(alloc);
    for i in 0..rows.len() {
        copies.push(rows[i].copied(alloc)?)?;
    }
    Ok(Items::from_vec(copies))
}

impl Copied for PartnerRow {
    fn copied(&self, alloc: Global) -> Result<PartnerRow, NoMemory> {
        Ok(PartnerRow {
            name: self.name.copied(alloc)?,
            qualifier: self.qualifier.copied(alloc)?,
            id: self.id.copied(alloc)?,
            code: self.code.copied(alloc)?,
            element: self.element.copied(alloc)?,
            component: self.component.copied(alloc)?,
            repetition: self.repetition.copied(alloc)?,
            terminator: self.terminator.copied(alloc)?,
            cap: self.cap,
            guides: copies_of(alloc, self.guides.as_slice())?,
        })
    }
}

impl Copied for RouteRow {
    fn copied(&self, alloc: Global) -> Result<RouteRow, NoMemory> {
        Ok(RouteRow {
            code: self.code.copied(alloc)?,
            to: copies_of(alloc, self.to.as_slice())?,
        })
    }
}

impl Copied for CounterRow {
    fn copied(&self, alloc: Global) -> Result<CounterRow, NoMemory> {
        Ok(CounterRow {
            partner: self.partner.copied(alloc)?,
            counters: self.counters,
        })
    }
}

impl Copied for HubRow {
    fn copied(&self, alloc: Global) -> Result<HubRow, NoMemory> {
        Ok(HubRow {
            qualifier: self.qualifier.copied(alloc)?,
            id: self.id.copied(alloc)?,
            code: self.code.copied(alloc)?,
            usage: self.usage,
        })
    }
}

fn rows_copied(alloc: Global, rows: &SetupRows) -> Result<SetupRows, NoMemory>
    ensures { IfOk result (λ copy. copy ≡ rows.now) }
{
    Ok(SetupRows {
        hub: rows.hub.copied(alloc)?,
        partners: copies_of(alloc, rows.partners.as_slice())?,
        routes: copies_of(alloc, rows.routes.as_slice())?,
    })
}

fn guide_names(alloc: Global, guides: &[Guide]) -> Result<Texts, NoMemory>
    ensures { IfOk result (λ names. names ≡ map kept.guide_name guides.now) }
{
    let mut names = Vec::new(alloc);
    for i in 0..guides.len() {
        names.push(copy_text(alloc, guides[i].rows().head.name.as_slice())?)?;
    }
    Ok(Items::from_vec(names))
}

/// The rows of a setup and of counters as they are written, and the names of its guides in their order: what a refusal shows.
#[derive(Debug, Drop)]
pub struct KeptRows {
    pub rows: SetupRows,
    pub counters: CounterRows,
    pub guides: Texts,
}

impl KeptRows {
    ghost use Rattle.std.specs.Prelude.{◌≡◌, IfOk};
    ghost use Rattle.setup_errors.specs.KeptRows.{kept_rows};

    /// Copies of these rows. The only error is out of memory.
    pub fn of(
        alloc: Global,
        rows: &SetupRows,
        counters: &[CounterRow],
        guides: &[Guide],
    ) -> Result<KeptRows, NoMemory>
        ensures { IfOk result (λ copies. copies ≡ kept_rows rows.now counters.now guides.now) }
    {
        Ok(KeptRows {
            rows: rows_copied(alloc, rows)?,
            counters: copies_of(alloc, counters)?,
            guides: guide_names(alloc, guides)?,
        })
    }
}
