ghost use Rattle.std.specs.Prelude.{◌≡◌, IfOk};

use crate::lookup::{first_by_table, first_for_set};
use crate::table::{table_at, tables_of};
use guide_fast::FastGuide;
use guide_tree::Guide;
use hub_kinds::NoMemory;
use partner_setup::Setup;
use std::alloc::Global;
use std::collections::BTreeMap;
use std::marker::Model;

/// The guides of a setup with their tables, and for each partner a table of its guides. Contracts see the setup.
#[derive(Drop)]
pub struct FastGuides<'a> {
    setup: &'a Setup,
    guides: Vec<FastGuide<'a>>,
    tables: Vec<BTreeMap<Vec<u8>, usize>>,
}

impl<'a> Model for FastGuides<'a> {
    ghost use Rattle.std.specs.Prelude.{◌≡◌};
    ghost use Rattle.std.specs.List.{AllZip};
    ghost use Rattle.set_findings.specs.Keys.{KeepsGuides};
    ghost use Rattle.guide_tree.specs.contracts.node.Node as node;
    ghost use Rattle.partner_setup.specs.Setup.{SetupValue};
    ghost use Rattle.std.specs.Coded.{codes};

    ghost Value = { SetupValue };

    ghost coded = { Prim.hlevel (codes, node.the_row.coded) };

    ghost view = { λ f. f.setup.now };

    ghost invariant = { λ f. (f.guides.items ≡ f.setup.now.guides)
        × AllZip (KeepsGuides f.setup.now.guides) f.setup.now.partners f.tables.items };
}

/// Each of some guides, compiled.
fn compiled<'a>(alloc: Global, guides: &'a [Guide]) -> Result<Vec<FastGuide<'a>>, NoMemory>
    ensures { IfOk result (λ v. v.items ≡ guides.now) }
{
    let mut all = Vec::with_capacity(alloc, guides.len())?;
    for guide in guides {
        all.push(FastGuide::of(alloc, guide)?)?;
    }
    Ok(all)
}

impl<'a> FastGuides<'a> {
    ghost use Rattle.std.specs.Prelude.{◌≡◌, IfOk, IfSome, map, option_map};
    ghost use Rattle.partner_setup.specs.Setup as setup;
    ghost use Rattle.partner_setup.specs.Tables.{KeepsPlaces};
    ghost use Rattle.set_findings.specs.Keys.{key_at};

    /// The fast guides of `setup`. The only error is out of memory.
    pub fn of(alloc: Global, setup: &'a Setup) -> Result<FastGuides<'a>, NoMemory>
        ensures { IfOk result (λ f. f ≡ setup.now) }
    {
        let guides = compiled(alloc, setup.guides())?;
        let tables = tables_of(alloc, guides.as_slice(), setup.partners())?;
        Ok(FastGuides {
            setup,
            guides,
            tables,
        })
    }

    /// The places of a partner's guides.
    fn places_of(&self, partner: usize) -> &[usize]
        ensures { result.now ≡ setup.places_of self.now partner }
    {
        match self.setup.partners().get(partner) {
            None => &[],
            Some(partner) => partner.guides.as_slice(),
        }
    }

    /// A partner's table.
    fn table_of(&self, partner: usize) -> Option<&BTreeMap<Vec<u8>, usize>>
        ensures { IfSome result (λ t. KeepsPlaces t.now 0 (map (key_at self.now.guides) (setup.places_of self.now partner))) }
    {
        table_at(self.tables.as_slice(), partner)
    }

    /// A partner's guide for a GS01, GS08 and ST01, with its tables; none where the partner has none.
    pub fn guide_of(
        &self,
        partner: usize,
        group: &[u8],
        version: &[u8],
        set: &[u8],
    ) -> Option<&FastGuide<'a>>
        ensures { option_map (λ g. g.now) result ≡ setup.guide_for_set self.now partner group.now version.now set.now }
    {
        let places = self.places_of(partner);
        match self.table_of(partner) {
            None => first_for_set(self.guides.as_slice(), places, group, version, set),
            Some(table) => {
                first_by_table(self.guides.as_slice(), places, table, group, version, set)
            }
        }
    }
}
