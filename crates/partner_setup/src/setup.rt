use crate::keys::place_in;
use crate::partner::{Partner, Route};
use crate::rows::HubRow;
use guide_tree::Guide;
use std::collections::BTreeMap;
use std::marker::Model;

/// The hub, its partners, where sets go, and the guides: accepted, so that nothing is refused of it.
pub struct Setup {
    hub: HubRow,
    partners: Vec<Partner>,
    routes: Vec<Route>,
    guides: Vec<Guide>,
    sender_places: BTreeMap<Vec<u8>, usize>,
    route_places: BTreeMap<Vec<u8>, usize>,
}

impl Drop for Setup {
    fn drop(self) {
        let Setup {
            hub: _,
            partners: _,
            routes: _,
            guides: _,
            sender_places: _,
            route_places: _,
        } = self;
    }
}

impl Model for Setup {
    ghost use Rattle.partner_setup.specs.Setup.{SetupValue};
    ghost use Rattle.guide_tree.specs.contracts.node.Node as node;
    ghost use Rattle.partner_setup.specs.Sound.{IsSoundSetup};
    ghost use Rattle.partner_setup.specs.Tables.{KeepsPlaces, sender_key, route_key};
    ghost use Rattle.std.specs.Prelude.{map};
    ghost use Rattle.std.specs.Coded.{codes};

    ghost Value = { SetupValue };

    ghost coded = { Prim.hlevel (codes, node.the_row.coded) };

    ghost view = { λ s. record {
      hub = s.hub;
      partners = s.partners.items;
      routes = s.routes.items;
      guides = s.guides.items;
    } };

    ghost invariant = { λ s. IsSoundSetup (record {
      hub = s.hub;
      partners = s.partners.items;
      routes = s.routes.items;
      guides = s.guides.items;
    }) × KeepsPlaces s.sender_places 0 (map sender_key s.partners.items) × KeepsPlaces s.route_places 0 (map route_key s.routes.items) };
}

impl Setup {
    ghost use Rattle.std.specs.Prelude.{◌≡◌, All, IsTrue, length, map, option_copied, slice_get};
    ghost use Rattle.partner_setup.specs.Names.{place_of};
    ghost use Rattle.partner_setup.specs.Tables.{KeepsPlaces, sender_key, route_key};
    ghost use Rattle.partner_setup.specs.Sound.{AreApart, AreWithin, IsSoundPartner, IsSoundSetup};
    ghost use Rattle.partner_setup.specs.SetupFaults.{are_ids};

    pub(crate) fn of(
        hub: HubRow,
        partners: Vec<Partner>,
        routes: Vec<Route>,
        guides: Vec<Guide>,
        sender_places: BTreeMap<Vec<u8>, usize>,
        route_places: BTreeMap<Vec<u8>, usize>,
    ) -> Setup
        requires senders { KeepsPlaces sender_places 0 (map sender_key partners.items) }
        requires codes { KeepsPlaces route_places 0 (map route_key routes.items) }
        requires sound { IsSoundSetup (record { hub = hub; partners = partners.items; routes = routes.items; guides = guides.items }) }
        ensures { result ≡ record { hub = hub; partners = partners.items; routes = routes.items; guides = guides.items } }
    {
        Setup {
            hub,
            partners,
            routes,
            guides,
            sender_places,
            route_places,
        }
    }

    /// The first place of a partner with a qualifier and an id after it.
    pub(crate) fn place_with_id(&self, key: &[u8]) -> Option<usize>
        ensures { result ≡ place_of (map sender_key self.now.partners) key.now }
    {
        place_in(&self.sender_places, key)
    }

    /// The first place of a route with a code.
    pub(crate) fn place_with_code(&self, code: &[u8]) -> Option<usize>
        ensures { result ≡ place_of (map route_key self.now.routes) code.now }
    {
        place_in(&self.route_places, code)
    }

    /// How the hub is named where it sends. Its qualifier, its id and its code have their forms.
    pub fn hub(&self) -> &HubRow
        ensures hub { result.now ≡ self.now.hub }
        ensures ids { IsTrue (are_ids self.now.hub.qualifier self.now.hub.id self.now.hub.code) }
    {
        &self.hub
    }

    /// The partners, in their order. Each one's cap, counters, delimiters, names and guides are what they must be.
    pub fn partners(&self) -> &[Partner]
        ensures partners { result.now ≡ self.now.partners }
        ensures sound { All (IsSoundPartner (length self.now.guides)) self.now.partners }
    {
        self.partners.as_slice()
    }

    /// A partner by its place.
    pub fn partner_at(&self, place: usize) -> Option<&Partner>
        ensures { option_copied result ≡ slice_get self.entry.now.partners place }
    {
        self.partners.get(place)
    }

    /// The routes, in their order. Each leads to partners of the setup, to none twice.
    pub fn routes(&self) -> &[Route]
        ensures routes { result.now ≡ self.now.routes }
        ensures within { All (λ r. AreWithin (length self.now.partners) r.to) self.now.routes }
        ensures apart { All (λ r. AreApart r.to) self.now.routes }
    {
        self.routes.as_slice()
    }

    /// The guides, in their order.
    pub fn guides(&self) -> &[Guide]
        ensures { result.now ≡ self.now.guides }
    {
        self.guides.as_slice()
    }
}
