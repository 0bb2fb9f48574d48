//! What is wrong with a setup that is refused, and where.
ghost use Rattle.std.specs.Prelude.{◌≡◌, ◌++◌, OnOk, option_map};
ghost use Rattle.setup_errors.specs.Sentences.{text_of};
ghost use Rattle.setup_errors.specs.SetupWords as words;

use crate::delimiters::delimiters_cause;
use crate::ids::{hub_cause, partner_cause};
use crate::kept_rows::KeptRows;
use crate::named::Named;
use crate::rows::{cap_cause, counter_cause, guides_cause, route_cause, same_cause};
use crate::rows_said::names_of;
use crate::sentence::{Sentence, append_cause, in_place};
use crate::words::{COUNTER_ROW, GUIDE, HUB, LATER_GUIDE, NO_MEMORY, PARTNER, ROUTE};
use guide_tree::Codes;
use hub_kinds::NoMemory;
use partner_setup::{GuidesOwner, IdOwner, SetupFault};
use std::alloc::Global;

/// The row at a place, by its number and its name.
fn row_place<'a, T: Named>(kind: &'static str, rows: &'a [T], place: usize) -> Option<Sentence<'a>>
    ensures { option_map text_of result ≡ words.row_place kind.now T.name rows.entry.now place }
{
    match rows.get(place) {
        None => None,
        Some(row) => Some(in_place(kind, place as u64 + 1, row.name())),
    }
}

fn partner_place<'a>(kept: &'a KeptRows, place: usize) -> Option<Sentence<'a>>
    ensures { option_map text_of result ≡ words.partner_place kept.entry.now place }
{
    row_place(PARTNER, kept.rows.partners.as_slice(), place)
}

/// Where the refusal of a setup is.
fn place_of<'a>(kept: &'a KeptRows, fault: &SetupFault) -> Option<Sentence<'a>>
    ensures { option_map text_of result ≡ words.place_of kept.entry.now fault.now }
{
    match fault {
        SetupFault::SamePartner(place) => partner_place(kept, *place),
        SetupFault::BadDelimiters(place) => partner_place(kept, *place),
        SetupFault::BadId(IdOwner::Hub) => Some(Sentence::Plain(HUB)),
        SetupFault::BadId(IdOwner::Partner(place)) => partner_place(kept, *place),
        SetupFault::BadGuides(GuidesOwner::Partner(place)) => partner_place(kept, *place),
        SetupFault::BadGuides(GuidesOwner::Guide(place)) => {
            row_place(GUIDE, kept.guides.as_slice(), *place)
        }
        SetupFault::BadRoute(place) => row_place(ROUTE, kept.rows.routes.as_slice(), *place),
        SetupFault::BadCounter(place) => row_place(COUNTER_ROW, kept.counters.as_slice(), *place),
        SetupFault::BadCap(place) => partner_place(kept, *place),
        SetupFault::NoMemory => None,
    }
}

/// What is wrong with the hub's or a partner's ids.
fn ids_cause<'a>(kept: &'a KeptRows, owner: &IdOwner) -> Option<Sentence<'a>>
    ensures { option_map text_of result ≡ words.ids_cause kept.entry.now owner.now }
{
    match owner {
        IdOwner::Hub => hub_cause(&kept.rows.hub),
        IdOwner::Partner(place) => match kept.rows.partners.as_slice().get(*place) {
            None => None,
            Some(partner) => partner_cause(partner),
        },
    }
}

/// What is wrong with a partner's guides, or with a guide.
fn guides_cause_of<'a>(kept: &'a KeptRows, owner: &GuidesOwner) -> Option<Sentence<'a>>
    ensures { option_map text_of result ≡ words.guides_cause_of kept.entry.now owner.now }
{
    match owner {
        GuidesOwner::Guide(_) => Some(Sentence::Plain(LATER_GUIDE)),
        GuidesOwner::Partner(place) => match kept.rows.partners.as_slice().get(*place) {
            None => None,
            Some(partner) => guides_cause(kept.guides.as_slice(), partner),
        },
    }
}

/// What is wrong with a setup, by the partners' names.
fn cause_of<'a>(kept: &'a KeptRows, names: &Codes, fault: &SetupFault) -> Option<Sentence<'a>>
    ensures { option_map text_of result ≡ words.cause_of kept.entry.now names.now fault.now }
{
    let partners = kept.rows.partners.as_slice();
    match fault {
        SetupFault::SamePartner(place) => match partners.get(*place) {
            None => None,
            Some(partner) => same_cause(partners, *place, partner),
        },
        SetupFault::BadDelimiters(place) => match partners.get(*place) {
            None => None,
            Some(partner) => delimiters_cause(partner),
        },
        SetupFault::BadId(owner) => ids_cause(kept, owner),
        SetupFault::BadGuides(owner) => guides_cause_of(kept, owner),
        SetupFault::BadRoute(place) => match kept.rows.routes.as_slice().get(*place) {
            None => None,
            Some(route) => route_cause(kept, names, *place, route),
        },
        SetupFault::BadCounter(place) => match kept.counters.as_slice().get(*place) {
            None => None,
            Some(counter) => counter_cause(kept, names, *place, counter),
        },
        SetupFault::BadCap(place) => match partners.get(*place) {
            None => None,
            Some(partner) => cap_cause(partner),
        },
        SetupFault::NoMemory => Some(Sentence::Plain(NO_MEMORY)),
    }
}

/// Appends to `out` what is wrong with a setup of which these rows are kept. The only error is out of memory.
pub fn append_setup_words(
    alloc: Global,
    out: &mut Vec<u8>,
    kept: &KeptRows,
    fault: &SetupFault,
) -> Result<(), NoMemory>
    ensures { OnOk result (out.new.items ≡ out.old.items ++ words.setup_words kept.now fault.now) }
{
    let names = names_of(alloc, kept.rows.partners.as_slice())?;
    append_cause(out, place_of(kept, fault))?;
    append_cause(out, cause_of(kept, &names, fault))
}
