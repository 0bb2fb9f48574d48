//! The element rows of guides that are known, by the segment and the position.
use guide_tree::{Component, CompositeRow, Element, Guide, Node, SimpleRow, Slot};
use hub_kinds::NoMemory;
use std::alloc::Global;
use std::collections::BTreeMap;

/// A row of a guide that is known.
#[derive(Clone, Copy)]
pub(crate) enum KnownRow<'k> {
    /// It isn't used, and has this reference number.
    NotUsed(&'k [u8]),
    /// It is a composite, and has this reference number.
    Composite(&'k [u8]),
    Simple(&'k SimpleRow),
}

/// The rows of guides that are known: of several for one element the first one that is used.
#[derive(Drop)]
pub(crate) struct Known<'k> {
    rows: BTreeMap<Vec<u8>, KnownRow<'k>>,
}

/// An element of a segment, or a component of it; both are counted from 1, and component 0 is the element.
#[derive(Clone, Copy)]
pub(crate) struct Spot<'s> {
    pub id: &'s [u8],
    pub element: usize,
    pub component: usize,
}

fn name_of(alloc: Global, spot: &Spot) -> Result<Vec<u8>, NoMemory> {
    let mut name = Vec::from_slice(alloc, spot.id)?;
    name.push(0)?;
    name.extend_from_slice(&(spot.element as u64).to_be_bytes())?;
    name.extend_from_slice(&(spot.component as u64).to_be_bytes())?;
    Ok(name)
}

impl<'k> Known<'k> {
    /// The rows of guides.
    pub(crate) fn new(alloc: Global, guides: &'k [Guide]) -> Result<Known<'k>, NoMemory> {
        let mut known = Known {
            rows: BTreeMap::new(alloc),
        };
        for guide in guides {
            known.add_nodes(alloc, guide.rows().nodes.as_slice())?;
        }
        Ok(known)
    }

    /// The row at a spot.
    pub(crate) fn row(&self, alloc: Global, spot: &Spot) -> Result<Option<KnownRow<'k>>, NoMemory> {
        let name = name_of(alloc, spot)?;
        Ok(self.rows.get(name.as_slice()).copied())
    }

    fn add(&mut self, alloc: Global, spot: &Spot, row: KnownRow<'k>) -> Result<(), NoMemory> {
        let name = name_of(alloc, spot)?;
        let is_better = match self.rows.get(name.as_slice()) {
            None | Some(KnownRow::NotUsed(_)) => true,
            Some(_) => false,
        };
        if is_better {
            let _old = self.rows.insert(name, row)?;
        }
        Ok(())
    }

    fn add_nodes(&mut self, alloc: Global, nodes: &'k [Node]) -> Result<(), NoMemory> {
        for node in nodes {
            match node {
                Node::Segment(slot) => self.add_slot(alloc, slot)?,
                Node::Loop(_, inner) => self.add_nodes(alloc, inner)?,
            }
        }
        Ok(())
    }

    fn add_slot(&mut self, alloc: Global, slot: &'k Slot) -> Result<(), NoMemory> {
        let mut position: usize = 0;
        for element in slot.elements.as_slice() {
            position = position.saturating_add(1);
            let spot = Spot {
                id: slot.id.as_slice(),
                element: position,
                component: 0,
            };
            match element {
                Element::NotUsed(text) => {
                    self.add(alloc, &spot, KnownRow::NotUsed(text.as_slice()))?
                }
                Element::Simple(row, _) => self.add(alloc, &spot, KnownRow::Simple(row))?,
                Element::Composite(row) => self.add_composite(alloc, spot, row)?,
            }
        }
        Ok(())
    }

    fn add_composite(
        &mut self,
        alloc: Global,
        spot: Spot,
        row: &'k CompositeRow,
    ) -> Result<(), NoMemory> {
        self.add(alloc, &spot, KnownRow::Composite(row.reference.as_slice()))?;
        let mut component: usize = 0;
        for part in row.components.as_slice() {
            component = component.saturating_add(1);
            let inner = Spot { component, ..spot };
            match part {
                Component::NotUsed(text) => {
                    self.add(alloc, &inner, KnownRow::NotUsed(text.as_slice()))?
                }
                Component::Simple(row) => self.add(alloc, &inner, KnownRow::Simple(row))?,
            }
        }
        Ok(())
    }
}
