use crate::standing::GroupStanding;
use env_index::Interchange;
use hub_kinds::{InterchangeFault, Items};
use std::marker::Model;

/// An interchange of a text (X12.5) as it is known once its sets are checked: who sends it, its fault, and what the check left of
/// its groups. The text and its index are lent.
#[derive(Drop)]
pub struct JudgedInterchange<'i, 'a> {
    text: &'a [u8],
    interchange: &'i Interchange<'a>,
    sender: Option<usize>,
    fault: Option<InterchangeFault>,
    standings: Items<GroupStanding>,
}

impl<'i, 'a> Model for JudgedInterchange<'i, 'a> {
    ghost use Rattle.env_index.specs.Spans.{HasSpans};
    ghost use Rattle.answered_sets.specs.Judged.{JudgedValue};

    ghost Value = { JudgedValue };

    ghost view = { λ x. record {
      text = x.text.now;
      interchange = x.interchange.now;
      sender = x.sender;
      fault = x.fault;
      standings = x.standings;
    } };

    ghost invariant = { λ x. HasSpans x.text.now x.interchange.now };
}

impl<'i, 'a> JudgedInterchange<'i, 'a> {
    ghost use Rattle.std.specs.Prelude.{◌≡◌};
    ghost use Rattle.env_index.specs.Spans.{HasSpans};

    /// An interchange of a text, with its sender's place in the setup, its fault, and the standing of each of its groups, in
    /// their order.
    pub fn new(
        text: &'a [u8],
        interchange: &'i Interchange<'a>,
        sender: Option<usize>,
        fault: Option<InterchangeFault>,
        standings: Items<GroupStanding>,
    ) -> Self
        requires { HasSpans text.now interchange.now }
        ensures { result
            ≡ record {
              text = text.entry.now;
              interchange = interchange.entry.now;
              sender = sender;
              fault = fault;
              standings = standings;
            } }
    {
        JudgedInterchange {
            text,
            interchange,
            sender,
            fault,
            standings,
        }
    }

    /// The text.
    pub fn text(&self) -> &'a [u8]
        ensures { result.now ≡ self.now.text }
    {
        self.text
    }

    /// The interchange in the index; its sets are in their spans of the text.
    pub fn interchange(&self) -> &'i Interchange<'a>
        ensures value { result.now ≡ self.now.interchange }
        ensures spans { HasSpans self.now.text self.now.interchange }
    {
        self.interchange
    }

    /// Its sender's place in the setup.
    pub fn sender(&self) -> Option<usize>
        ensures { result ≡ self.now.sender }
    {
        self.sender
    }

    /// Its fault, where it is refused.
    pub fn fault(&self) -> Option<InterchangeFault>
        ensures { result ≡ self.now.fault }
    {
        self.fault
    }

    /// What the check of its groups left, in their order.
    pub fn standings(&self) -> &[GroupStanding]
        ensures { result.now ≡ self.now.standings }
    {
        self.standings.as_slice()
    }
}
