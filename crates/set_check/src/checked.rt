ghost use Rattle.std.specs.Prelude.{◌≡◌, ◌↔◌, IsTrue, []};
ghost use Rattle.std.specs.Option.{option_map_or};
ghost use Rattle.set_check.specs.Verdict.{is_without_fault};

use crate::envelope::header_of;
use guide_tree::Guide;
use hub_kinds::{Faults, SetCode};
use set_walk::Ends;
use std::boxed::Box;
use std::marker::Model;
use x12_segs::SetSpan;

/// What was found of a set that isn't clean beside its faults: its codes, and what they speak of.
#[derive(Drop)]
pub(crate) struct Found<'a> {
    pub(crate) codes: Vec<SetCode>,
    pub(crate) envelope: Ends<'a>,
}

/// A transaction set of a text that was checked, with what was found wrong with it: its faults and codes are those of its own
/// span by its own guide. Of a set that is clean nothing is kept but where it is.
#[derive(Drop)]
pub struct CheckedSet<'a> {
    pub(crate) text: &'a [u8],
    pub(crate) span: SetSpan,
    pub(crate) guide: Option<&'a Guide>,
    pub(crate) faults: Faults<'a>,
    pub(crate) found: Option<Box<Found<'a>>>,
}

impl<'a> Model for CheckedSet<'a> {
    ghost use Rattle.std.specs.Prelude.{◌≡◌, [], None, IfSome};
    ghost use Rattle.std.specs.Option.{option_copied, option_map_or};
    ghost use Rattle.set_check.specs.Checked.{Checked, IsChecked};
    ghost use Rattle.set_check.specs.Envelope.{IsEnvelopeOf};
    ghost use Rattle.set_check.specs.SetParts.{set_parts};
    ghost use Rattle.x12_segs.specs.Words.{IsSetSpan};
    ghost use Rattle.guide_tree.specs.contracts.node.Node as node;
    ghost use Rattle.std.specs.Coded.{codes as known_codes};

    ghost Value = { Checked };

    ghost coded = { Prim.hlevel (known_codes, node.the_row.coded) };

    ghost view = { λ c. record {
      text = c.text.now;
      span = c.span;
      guide = option_copied c.guide;
      faults = c.faults;
      codes = option_map_or (λ f. f.value.codes.items) c.found [];
    } };

    ghost invariant = { λ c. IsChecked (record {
      text = c.text.now;
      span = c.span;
      guide = option_copied c.guide;
      faults = c.faults;
      codes = option_map_or (λ f. f.value.codes.items) c.found [];
    }) × IsSetSpan c.text.now c.span × IfSome c.found (λ f. IsEnvelopeOf (set_parts c.text.now c.span) f.value.envelope)
        × (c.found ≡ None → c.faults ≡ []) };
}

impl<'a> CheckedSet<'a> {
    ghost use Rattle.std.specs.Prelude.{◌≡◌, ◌↔◌, IsTrue};
    ghost use Rattle.hub_kinds.specs.Fault.{AreRising};
    ghost use Rattle.set_check.specs.Checked.{guide_in, parts_in};
    ghost use Rattle.set_check.specs.Meets.{MeetsAlone};
    ghost use Rattle.set_check.specs.SetFaults.{AreSetFaults, codes_with};
    ghost use Rattle.x12_segs.specs.View.{element_of};

    /// Where it is in its text.
    pub fn span(&self) -> SetSpan
        ensures { result ≡ self.now.span }
    {
        self.span
    }

    /// Its transaction set identifier code, ST01, as written.
    pub fn identifier(&self) -> &'a [u8]
        ensures { result.now ≡ element_of (parts_in self.now).header 1 }
    {
        header_of(self.text, &self.span).element(1)
    }

    /// Its transaction set control number, ST02, as written.
    pub fn control(&self) -> &'a [u8]
        ensures { result.now ≡ element_of (parts_in self.now).header 2 }
    {
        header_of(self.text, &self.span).element(2)
    }

    /// Its implementation convention reference, ST03, as written; empty where it is absent.
    pub fn convention(&self) -> &'a [u8]
        ensures { result.now ≡ element_of (parts_in self.now).header 3 }
    {
        header_of(self.text, &self.span).element(3)
    }

    /// Its faults (999 guide, IK3 and IK4), in their order, each once.
    pub fn faults(&self) -> &Faults<'a>
        ensures value { result.now ≡ self.now.faults }
        ensures exact { AreSetFaults (guide_in self.now) (parts_in self.now) self.now.faults }
        ensures rising { AreRising self.now.faults }
    {
        &self.faults
    }

    /// Its codes (999 guide, IK5) in their order, the first five; whether an earlier set of its group has its ST02 isn't asked.
    pub fn codes(&self) -> &[SetCode]
        ensures value { result.now ≡ self.now.codes }
        ensures exact { self.now.codes ≡ codes_with (guide_in self.now) (parts_in self.now) self.now.faults }
    {
        found_codes(&self.found)
    }

    /// Whether it meets its guide, looked at alone (X12.6): then it has neither a fault nor a code.
    pub fn is_clean(&self) -> bool
        ensures { IsTrue result ↔ MeetsAlone (guide_in self.now) (parts_in self.now) }
    {
        is_without_fault(&self.faults, found_codes(&self.found))
    }
}

/// The codes that were found, if any.
pub(crate) fn found_codes<'f>(found: &'f Option<Box<Found<'_>>>) -> &'f [SetCode]
    ensures { result.now ≡ option_map_or (λ f. f.value.codes.items) found.entry.now [] }
{
    match found {
        None => &[],
        Some(found) => found.codes.as_slice(),
    }
}

/// Whether there is neither a fault nor a code.
pub(crate) fn is_without_fault(faults: &Faults, codes: &[SetCode]) -> bool
    ensures value { result ≡ is_without_fault faults.now codes.now }
    ensures none { IsTrue result ↔ ((faults.now ≡ []) × (codes.now ≡ [])) }
{
    faults.is_empty() && codes.is_empty()
}
