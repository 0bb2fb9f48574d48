use crate::partner::Partner;
use hub_kinds::{Counters, Items, Text, Texts};
use x12_bytes::Delims;

/// The usage indicator (X12.5, ISA15).
#[derive(Clone, Copy, Debug, PartialEq, Eq)]
pub enum Usage {
    /// `P`
    Production,
    /// `T`
    Test,
}

/// How the hub is named where it sends.
#[derive(Debug)]
pub struct HubRow {
    /// Its id qualifier, ISA05.
    pub qualifier: Text,
    /// Its id, ISA06.
    pub id: Text,
    /// Its application code, GS02.
    pub code: Text,
    pub usage: Usage,
}

impl Drop for HubRow {
    fn drop(self) {
        let HubRow {
            qualifier: _,
            id: _,
            code: _,
            usage: _,
        } = self;
    }
}

/// A partner.
#[derive(Debug)]
pub struct PartnerRow {
    /// Its name in files and reports.
    pub name: Text,
    /// Its id qualifier, ISA05 and ISA07.
    pub qualifier: Text,
    /// Its id, ISA06 and ISA08.
    pub id: Text,
    /// Its application code, GS02 and GS03.
    pub code: Text,
    /// Its data element separator.
    pub element: Text,
    /// Its component element separator.
    pub component: Text,
    /// Its repetition separator.
    pub repetition: Text,
    /// Its segment terminator.
    pub terminator: Text,
    /// How many sets an interchange that is delivered to it holds at most.
    pub cap: u32,
    /// The names of the guides to which it keeps.
    pub guides: Texts,
}

impl Drop for PartnerRow {
    fn drop(self) {
        let PartnerRow {
            name: _,
            qualifier: _,
            id: _,
            code: _,
            element: _,
            component: _,
            repetition: _,
            terminator: _,
            cap: _,
            guides: _,
        } = self;
    }
}

impl PartnerRow {
    ghost use Rattle.std.specs.Prelude.{◌≡◌};

    /// The partner that it becomes, with what is made of the rest of it.
    pub(crate) fn into_partner(
        self,
        delims: Delims,
        counters: Counters,
        guides: Items<usize>,
    ) -> Partner
        ensures { result ≡ record {
          name = self.name;
          qualifier = self.qualifier;
          id = self.id;
          code = self.code;
          delims = delims;
          cap = self.cap;
          counters = counters;
          guides = guides;
        } }
    {
        let PartnerRow {
            name,
            qualifier,
            id,
            code,
            element: _,
            component: _,
            repetition: _,
            terminator: _,
            cap,
            guides: _,
        } = self;
        Partner {
            name,
            qualifier,
            id,
            code,
            delims,
            cap,
            counters,
            guides,
        }
    }
}

/// Where sets for an application code go.
#[derive(Debug, Drop)]
pub struct RouteRow {
    /// The application code, GS03.
    pub code: Text,
    /// The names of the partners who receive them, 1 to 16 where a file was read.
    pub to: Texts,
}

/// A setup file as it is written.
#[derive(Debug, Drop)]
pub struct SetupRows {
    pub hub: HubRow,
    pub partners: Items<PartnerRow>,
    pub routes: Items<RouteRow>,
}

/// From where a partner's numbers continue.
#[derive(Debug, Drop)]
pub struct CounterRow {
    /// The partner's name.
    pub partner: Text,
    pub counters: Counters,
}

/// A counters file as it is written.
pub type CounterRows = Items<CounterRow>;
