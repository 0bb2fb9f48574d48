use crate::notes::Notes;
use partner_setup::Setup;
use set_documents::Document;
use std::alloc::Global;
use std::marker::Model;

/// What the rows of a night are made by.
#[derive(Drop)]
pub(crate) struct Tracking<'c, 'd> {
    pub(crate) alloc: Global,
    pub(crate) setup: &'c Setup,
    pub(crate) night: &'c [Notes],
    pub(crate) documents: &'c [Document<'d>],
}

impl<'c, 'd> Model for Tracking<'c, 'd> {
    ghost use Rattle.track_table.specs.Rows.{TrackedBy};
    ghost use Rattle.guide_tree.specs.contracts.node.Node as node;
    ghost use Rattle.std.specs.Coded.{codes};

    ghost Value = { TrackedBy };

    ghost coded = { Prim.hlevel (codes, node.the_row.coded) };

    ghost view = { λ t. record { setup = t.setup.now; night = t.night.now; documents = t.documents.now } };
}
