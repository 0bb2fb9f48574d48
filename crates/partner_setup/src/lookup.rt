ghost use Rattle.std.specs.Prelude.{◌≡◌, ◌≤◌, ◌+◌, ◌++◌, [], find, length, option_and_then, option_map, slice_get, take};
ghost use Rattle.std.specs.List.{list_any};
ghost use Rattle.std.specs.Option.{option_map_or};
ghost use Rattle.x12_bytes.specs.Header.{field_of};
ghost use Rattle.x12_bytes.specs.Spaces.{without_trailing_spaces};
ghost use Rattle.partner_setup.specs.Names.{those_at};
ghost use Rattle.partner_setup.specs.Setup as setup;

use crate::partner::Route;
use crate::setup::Setup;
use guide_tree::Guide;
use x12_bytes::{Header, without_trailing_spaces};

/// The length of a qualifier.
const QUALIFIER_LEN: usize = 2;

/// The greatest length of an id.
const ID_LEN: usize = 15;

/// A qualifier, and an id after it.
fn key_of(qualifier: &[u8], id: &[u8]) -> [u8; 17]
    requires qualifier { length qualifier.now ≡ 2 }
    requires id { length id.now ≤ 15 }
    ensures { take (2 + length id.now) result ≡ qualifier.now ++ id.now }
{
    let mut key = [0; QUALIFIER_LEN + ID_LEN];
    key[0] = qualifier[0];
    key[1] = qualifier[1];
    for i in 0..id.len() {
        key[i + QUALIFIER_LEN] = id[i];
    }
    key
}

/// ISA05.
fn qualifier_in<'a>(header: &Header<'a>) -> &'a [u8]
    ensures { result.now ≡ field_of header.now 5 }
{
    header.field(5)
}

/// ISA06 without its trailing spaces.
fn id_in<'a>(header: &Header<'a>) -> &'a [u8]
    ensures { result.now ≡ without_trailing_spaces (field_of header.now 6) }
{
    without_trailing_spaces(header.field(6))
}

fn targets_at<'s>(routes: &'s [Route], place: Option<usize>) -> &'s [usize]
    ensures { result.now ≡ option_map_or (λ r. r.to) (option_and_then (slice_get routes.entry.now) place) [] }
{
    let Some(place) = place else {
        return &[];
    };
    match routes.get(place) {
        None => &[],
        Some(route) => route.to.as_slice(),
    }
}

fn guide_at(guides: &[Guide], place: usize) -> Option<&Guide>
    ensures { option_map (λ g. g.now) result ≡ slice_get guides.entry.now place }
{
    guides.get(place)
}

fn is_for_set(guide: &Guide, group: &[u8], version: &[u8], set: &[u8]) -> bool
    ensures { result ≡ setup.is_for_set group.now version.now set.now guide.now }
{
    let head = &guide.rows().head;
    head.group.as_slice() == group
        && head.version.as_slice() == version
        && head.set.as_slice() == set
}

fn is_for_version(guide: &Guide, group: &[u8], version: &[u8]) -> bool
    ensures { result ≡ setup.is_for_version group.now version.now guide.now }
{
    let head = &guide.rows().head;
    head.group.as_slice() == group && head.version.as_slice() == version
}

fn is_for_group(guide: &Guide, group: &[u8]) -> bool
    ensures { result ≡ setup.is_for_group group.now guide.now }
{
    guide.rows().head.group.as_slice() == group
}

fn any_for_group(guides: &[Guide], places: &[usize], group: &[u8]) -> bool
    ensures { result ≡ list_any (setup.is_for_group group.now) (those_at guides.now places.now) }
{
    for place in places {
        if let Some(guide) = guide_at(guides, *place) {
            if is_for_group(guide, group) {
                return true;
            }
        }
    }
    false
}

fn any_for_version(guides: &[Guide], places: &[usize], group: &[u8], version: &[u8]) -> bool
    ensures { result ≡ list_any (setup.is_for_version group.now version.now) (those_at guides.now places.now) }
{
    for place in places {
        if let Some(guide) = guide_at(guides, *place) {
            if is_for_version(guide, group, version) {
                return true;
            }
        }
    }
    false
}

fn first_for_set<'s>(
    guides: &'s [Guide],
    places: &[usize],
    group: &[u8],
    version: &[u8],
    set: &[u8],
) -> Option<&'s Guide>
    ensures { option_map (λ g. g.now) result
        ≡ find (setup.is_for_set group.now version.now set.now) (those_at guides.entry.now places.now) }
{
    for place in places {
        if let Some(guide) = guide_at(guides, *place) {
            if is_for_set(guide, group, version, set) {
                return Some(guide);
            }
        }
    }
    None
}

impl Setup {
    ghost use Rattle.std.specs.Prelude.{◌≡◌, ◌<◌, IfSome, length, option_map, position};
    ghost use Rattle.partner_setup.specs.Names.{those_at};
    ghost use Rattle.partner_setup.specs.Setup as setup;
    ghost use Rattle.partner_setup.specs.Sound.{AreApart, AreWithin};

    fn with_id(&self, qualifier: &[u8], id: &[u8]) -> Option<usize>
        ensures { result ≡ position (λ p. setup.has_qualifier_and_id p qualifier.now id.now) self.now.partners }
    {
        let _ = self.partners();
        if qualifier.len() != QUALIFIER_LEN {
            return None;
        }
        if id.len() > ID_LEN {
            return None;
        }
        let key = key_of(qualifier, id);
        self.place_with_id(&key[..QUALIFIER_LEN + id.len()])
    }

    /// The place of the partner that sends an interchange with this header: ISA05 is its qualifier, ISA06 without trailing
    /// spaces its id (X12.5, interchange sender).
    pub fn sender_of(&self, header: &Header<'_>) -> Option<usize>
        ensures sender { result ≡ setup.sender_of self.now header.now }
        ensures within { IfSome result (λ q. q < length self.now.partners) }
    {
        self.with_id(qualifier_in(header), id_in(header))
    }

    /// The places of the partners to whom sets for an application code go (GS03), in the route's order, none of them twice; none
    /// at all without a route.
    pub fn route_of(&self, code: &[u8]) -> &[usize]
        ensures targets { result.now ≡ setup.route_of self.now code.now }
        ensures within { AreWithin (length self.now.partners) result.now }
        ensures apart { AreApart result.now }
    {
        targets_at(self.routes(), self.place_with_code(code))
    }

    /// The places of a partner's guides.
    fn places_of(&self, partner: usize) -> &[usize]
        ensures { result.now ≡ setup.places_of self.now partner }
    {
        match self.partners().get(partner) {
            None => &[],
            Some(partner) => partner.guides.as_slice(),
        }
    }

    /// Whether a partner has a guide for a GS01.
    pub fn has_group(&self, partner: usize, group: &[u8]) -> bool
        ensures { result ≡ setup.has_group self.now partner group.now }
    {
        any_for_group(self.guides(), self.places_of(partner), group)
    }

    /// Whether a partner has a guide for a GS01 with a GS08.
    pub fn has_version(&self, partner: usize, group: &[u8], version: &[u8]) -> bool
        ensures { result ≡ setup.has_version self.now partner group.now version.now }
    {
        any_for_version(self.guides(), self.places_of(partner), group, version)
    }

    /// A partner's guide for a GS01, GS08 and ST01.
    pub fn guide_of(
        &self,
        partner: usize,
        group: &[u8],
        version: &[u8],
        set: &[u8],
    ) -> Option<&Guide>
        ensures { option_map (λ g. g.now) result ≡ setup.guide_for_set self.now partner group.now version.now set.now }
    {
        first_for_set(self.guides(), self.places_of(partner), group, version, set)
    }
}
