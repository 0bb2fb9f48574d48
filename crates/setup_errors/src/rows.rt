//! What is wrong with a partner, a route or a counter.
ghost use Rattle.std.specs.Prelude.{◌≡◌, ◌<◌, length, option_map};
ghost use Rattle.setup_errors.specs.Rows as rows;
ghost use Rattle.setup_errors.specs.Sentences.{text_of};

use crate::ids::code_cause;
use crate::kept_rows::KeptRows;
use crate::named::{next_named, next_sender};
use crate::sentence::{Detail, Sentence, first_of};
use crate::words::{
    CAP, COUNTER, GROUP, INTERCHANGE, NO_PARTNER, NOT_GIVEN, SAME_CODE, SAME_NAME, SAME_PARTNER,
    SAME_SENDER, SAME_SETS, SET, TWICE,
};
use guide_tree::Codes;
use hub_kinds::{Text, contains_text};
use partner_setup::{CounterRow, PartnerRow, RouteRow, is_cap, is_counter};

/// The later row that has the same.
fn next_cause(sentence: &'static str, next: Option<u64>) -> Option<Sentence<'static>>
    ensures { option_map text_of result ≡ rows.next_cause sentence.now next }
{
    match next {
        None => None,
        Some(number) => Some(Sentence::One(sentence, Detail::Number(number))),
    }
}

/// The name that is wrong.
fn name_cause<'a>(sentence: &'static str, name: Option<&'a [u8]>) -> Option<Sentence<'a>>
    ensures { option_map text_of result ≡ rows.name_cause sentence.now (option_map (λ n. n.now) name.entry) }
{
    match name {
        None => None,
        Some(name) => Some(Sentence::One(sentence, Detail::Text(name))),
    }
}

/// The partner that has this one's qualifier and id.
fn sender_cause<'a>(partner: &'a PartnerRow, next: Option<u64>) -> Option<Sentence<'a>>
    ensures { option_map text_of result ≡ rows.sender_cause partner.entry.now next }
{
    match next {
        None => None,
        Some(number) => Some(Sentence::Three(
            SAME_SENDER,
            Detail::Number(number),
            Detail::Text(partner.qualifier.as_slice()),
            Detail::Text(partner.id.as_slice()),
        )),
    }
}

/// What of the partner at this place a later one has too.
pub(crate) fn same_cause<'a>(
    partners: &[PartnerRow],
    place: usize,
    partner: &'a PartnerRow,
) -> Option<Sentence<'a>>
    requires { place < length partners.now }
    ensures { option_map text_of result ≡ rows.same_cause partners.now place partner.entry.now }
{
    let next = next_named(partners, place, partner.name.as_slice());
    let qualifier = partner.qualifier.as_slice();
    let sender = next_sender(partners, place, qualifier, partner.id.as_slice());
    first_of(next_cause(SAME_NAME, next), sender_cause(partner, sender))
}

/// What is wrong with a partner's cap.
pub(crate) fn cap_cause(partner: &PartnerRow) -> Option<Sentence<'static>>
    ensures { option_map text_of result ≡ rows.cap_cause partner.now }
{
    if is_cap(partner.cap) {
        return None;
    }
    Some(Sentence::One(CAP, Detail::Number(u64::from(partner.cap))))
}

/// The first text that isn't one of a list.
fn first_unlisted<'a>(listed: &[Text], texts: &'a [Text]) -> Option<&'a [u8]>
    ensures { option_map (λ t. t.now) result ≡ rows.first_unlisted listed.now texts.entry.now }
{
    for i in 0..texts.len() {
        if !contains_text(listed, texts[i].as_slice()) {
            return Some(texts[i].as_slice());
        }
    }
    None
}

/// What is wrong with a partner's guides.
pub(crate) fn guides_cause<'a>(guides: &[Text], partner: &'a PartnerRow) -> Option<Sentence<'a>>
    ensures { option_map text_of result ≡ rows.guides_cause guides.now partner.entry.now }
{
    match name_cause(NOT_GIVEN, first_unlisted(guides, partner.guides.as_slice())) {
        None => Some(Sentence::Plain(SAME_SETS)),
        found => found,
    }
}

/// The first text that is again later.
fn first_again(texts: &[Text]) -> Option<&[u8]>
    ensures { option_map (λ t. t.now) result ≡ rows.first_again texts.entry.now }
{
    for i in 0..texts.len() {
        if contains_text(&texts[i + 1..], texts[i].as_slice()) {
            return Some(texts[i].as_slice());
        }
    }
    None
}

/// The first text that isn't one of some names.
fn first_unknown<'a>(names: &Codes, texts: &'a [Text]) -> Option<&'a [u8]>
    ensures { option_map (λ t. t.now) result ≡ rows.first_unlisted names.now texts.entry.now }
{
    for i in 0..texts.len() {
        if !names.contains(texts[i].as_slice()) {
            return Some(texts[i].as_slice());
        }
    }
    None
}

/// A receiver of a route that isn't a partner.
pub(crate) fn unknown_cause<'a>(names: &Codes, route: &'a RouteRow) -> Option<Sentence<'a>>
    ensures { option_map text_of result ≡ rows.unknown_cause names.now route.entry.now }
{
    name_cause(NO_PARTNER, first_unknown(names, route.to.as_slice()))
}

/// A receiver that a route names twice.
pub(crate) fn again_cause<'a>(route: &'a RouteRow) -> Option<Sentence<'a>>
    ensures { option_map text_of result ≡ rows.again_cause route.entry.now }
{
    name_cause(TWICE, first_again(route.to.as_slice()))
}

/// What is wrong with the route at this place, by the partners' names.
pub(crate) fn route_cause<'a>(
    kept: &KeptRows,
    names: &Codes,
    place: usize,
    route: &'a RouteRow,
) -> Option<Sentence<'a>>
    requires { place < length kept.now.rows.routes }
    ensures { option_map text_of result ≡ rows.route_cause kept.now names.now place route.entry.now }
{
    let next = next_named(kept.rows.routes.as_slice(), place, route.code.as_slice());
    let again = first_of(again_cause(route), next_cause(SAME_CODE, next));
    let unknown = unknown_cause(names, route);
    first_of(code_cause(route.code.as_slice()), first_of(unknown, again))
}

/// That the number at this key is out of 1 to 999,999,999.
pub(crate) fn number_cause(key: &'static str, number: u32) -> Option<Sentence<'static>>
    ensures { option_map text_of result ≡ rows.number_cause key.now number }
{
    if is_counter(number) {
        return None;
    }
    let key = Detail::Text(key.as_bytes());
    Some(Sentence::Two(COUNTER, key, Detail::Number(u64::from(number))))
}

fn counted_cause<'a>(
    kept: &KeptRows,
    names: &Codes,
    place: usize,
    counter: &'a CounterRow,
) -> Option<Sentence<'a>>
    requires { place < length kept.now.counters }
    ensures { option_map text_of result ≡ rows.counted_cause kept.now names.now place counter.entry.now }
{
    let name = counter.partner.as_slice();
    if names.contains(name) {
        let next = next_named(kept.counters.as_slice(), place, name);
        return next_cause(SAME_PARTNER, next);
    }
    Some(Sentence::One(NO_PARTNER, Detail::Text(name)))
}

/// What is wrong with the counter at this place, by the partners' names.
pub(crate) fn counter_cause<'a>(
    kept: &KeptRows,
    names: &Codes,
    place: usize,
    counter: &'a CounterRow,
) -> Option<Sentence<'a>>
    requires { place < length kept.now.counters }
    ensures { option_map text_of result ≡ rows.counter_cause kept.now names.now place counter.entry.now }
{
    let numbers = counter.counters;
    let set = number_cause(SET, numbers.set);
    let later = first_of(set, counted_cause(kept, names, place, counter));
    let group = number_cause(GROUP, numbers.group);
    let interchange = number_cause(INTERCHANGE, numbers.interchange);
    first_of(interchange, first_of(group, later))
}
