ghost use Rattle.std.specs.Prelude.{◌≡◌};
ghost use Rattle.set_findings.specs.Jobs.{set_job};
ghost use Rattle.worker_pool.specs.Jobs.{job_value};

use crate::guides::FastGuides;
use env_index::SetEnvelope;
use hub_kinds::Place;
use std::marker::Model;
use worker_pool::{CheckJob, SetJob};
use x12_bytes::Delims;

/// What the sets of an interchange are checked under: the text, the setup's guides, the sender's place in the setup, and the
/// interchange's delimiters.
#[derive(Drop)]
pub(crate) struct Sent<'f, 'g, 'a> {
    text: &'a [u8],
    guides: &'f FastGuides<'g>,
    sender: usize,
    delims: Delims,
}

impl<'f, 'g, 'a> Model for Sent<'f, 'g, 'a> {
    ghost use Rattle.set_answers.specs.Answers.{SentValue};
    ghost use Rattle.guide_tree.specs.contracts.node.Node as node;
    ghost use Rattle.std.specs.Coded.{codes};

    ghost Value = { SentValue };

    ghost coded = { Prim.hlevel (codes, node.the_row.coded) };

    ghost view = { λ s. record { text = s.text.now; setup = s.guides.now; sender = s.sender; delims = s.delims } };
}

impl<'f, 'g, 'a> Sent<'f, 'g, 'a> {
    pub(crate) fn new(
        text: &'a [u8],
        guides: &'f FastGuides<'g>,
        sender: usize,
        delims: Delims,
    ) -> Sent<'f, 'g, 'a>
        ensures { result ≡ record { text = text.entry.now; setup = guides.entry.now; sender = sender; delims = delims } }
    {
        Sent {
            text,
            guides,
            sender,
            delims,
        }
    }

    /// The job of a set, of a group with this GS01 and GS08.
    pub(crate) fn set_job(
        &self,
        place: Place,
        group: &[u8],
        version: &[u8],
        set: &SetEnvelope<'a>,
    ) -> CheckJob<'f, 'g, 'a>
        ensures { job_value result ≡ set_job self.now place group.now version.now set.now }
    {
        let guide = self
            .guides
            .guide_of(self.sender, group, version, set.header.element(1));
        CheckJob {
            place,
            set: Some(SetJob {
                text: self.text,
                span: set.span(self.delims),
                guide,
            }),
        }
    }
}
