ghost use Rattle.std.specs.Prelude.{◌≡◌, None, IfOk, IsTrue, option_map};
ghost use Rattle.std.specs.List.{All};
ghost use Rattle.guide_tree.specs.Words.{guide_of};
ghost use Rattle.x12_bytes.specs.Header.{header_delims};
ghost use Rattle.x12_segs.specs.Words.{IsSetSpan};
ghost use Rattle.env_index.specs.Words.{IsEntryOf, span_of};
ghost use Rattle.learn_judge.specs.Indexed.{HasSpansIn, IsFor, IsTakenIn, TakesEntry, TakesGroupIn, is_asked_in};
ghost use Rattle.learn_judge.specs.Samples.{TakesText};

use crate::words::{another_kind, too_long, why_unmet};
use env_index::{GroupEnvelope, IndexedInterchange, Interchange, SetEnvelope, index_plain};
use guide_tree::{Guide, GuideRows};
use hub_kinds::{NoMemory, Text, within_limit};
use night_equal_set::meetings_are_one;
use night_equal_text::{faults_are_one, interchanges_are_kept, sets_are_parts, texts_are_indexes};
use set_check::check_set;
use std::alloc::Global;
use x12_bytes::Delims;
use x12_segs::SegView;

/// A set that a guide doesn't take.
#[derive(Debug, Drop)]
pub struct Unmet {
    /// The offset of its ST in the text.
    pub start: usize,
    /// Why, in words.
    pub words: Text,
}

/// The first set of `text` that `guide` doesn't take, and none if it takes each: each set that is asked for, of each interchange without
/// one of the faults 1 to 7, is one for the guide (GS01, GS08 and ST01) and meets it, looked at alone. The sets that are asked for are
/// those with `st01`, or all. It costs a check of each set. The only error is out of memory.
pub fn unmet_of(
    alloc: Global,
    text: &[u8],
    guide: &Guide,
    st01: Option<&[u8]>,
) -> Result<Option<Unmet>, NoMemory>
    ensures { IfOk result (λ found. found ≡ None → TakesText (guide_of guide.now) (option_map (λ t. t.now) st01.entry) text.now) }
{
    texts_are_indexes();
    interchanges_are_kept();
    faults_are_one();
    sets_are_parts();
    meetings_are_one();
    let _rows = guide.rows();
    if !within_limit(text.len() as u64) {
        return Ok(Some(Unmet {
            start: 0,
            words: too_long(alloc)?,
        }));
    }
    let index = index_plain(alloc, text)?;
    unmet_in_text(alloc, text, guide, st01, index.interchanges())
}

/// The first set of interchanges that the guide doesn't take.
fn unmet_in_text(
    alloc: Global,
    text: &[u8],
    guide: &Guide,
    st01: Option<&[u8]>,
    entries: &[IndexedInterchange],
) -> Result<Option<Unmet>, NoMemory>
    requires { All (IsEntryOf text.now) entries.now }
    ensures { IfOk result (λ found. found ≡ None
        → All (TakesEntry (guide_of guide.now) (option_map (λ t. t.now) st01.entry) text.now) entries.now) }
{
    for k in 0..entries.len() {
        let found = unmet_in_entry(alloc, text, guide, st01, &entries[k])?;
        if found.is_some() {
            return Ok(found);
        }
    }
    Ok(None)
}

/// The first set of an interchange that the guide doesn't take; none if it has a fault.
fn unmet_in_entry(
    alloc: Global,
    text: &[u8],
    guide: &Guide,
    st01: Option<&[u8]>,
    entry: &IndexedInterchange,
) -> Result<Option<Unmet>, NoMemory>
    requires { IsEntryOf text.now entry.now }
    ensures { IfOk result (λ found. found ≡ None
        → TakesEntry (guide_of guide.now) (option_map (λ t. t.now) st01.entry) text.now entry.now) }
{
    if entry.fault().is_some() {
        return Ok(None);
    }
    unmet_in_interchange(alloc, text, guide, st01, entry.interchange())
}

/// The first set of an interchange that the guide doesn't take.
fn unmet_in_interchange(
    alloc: Global,
    text: &[u8],
    guide: &Guide,
    st01: Option<&[u8]>,
    interchange: &Interchange,
) -> Result<Option<Unmet>, NoMemory>
    requires { All (HasSpansIn text.now (header_delims interchange.now.header)) interchange.now.content.groups }
    ensures { IfOk result (λ found. found ≡ None
        → All (TakesGroupIn (guide_of guide.now) (option_map (λ t. t.now) st01.entry) text.now (header_delims interchange.now.header))
        interchange.now.content.groups) }
{
    let delims = interchange.header().delims();
    for k in 0..interchange.group_count() {
        let found = unmet_in_group(alloc, text, guide, st01, &interchange.group(k), delims)?;
        if found.is_some() {
            return Ok(found);
        }
    }
    Ok(None)
}

/// The first set of a group that the guide doesn't take.
fn unmet_in_group(
    alloc: Global,
    text: &[u8],
    guide: &Guide,
    st01: Option<&[u8]>,
    group: &GroupEnvelope,
    delims: Delims,
) -> Result<Option<Unmet>, NoMemory>
    requires { HasSpansIn text.now delims group.now }
    ensures { IfOk result (λ found. found ≡ None
        → TakesGroupIn (guide_of guide.now) (option_map (λ t. t.now) st01.entry) text.now delims group.now) }
{
    let header = group.header();
    for k in 0..group.set_count() {
        let found = unmet_set(alloc, text, guide, st01, &header, &group.set(k), delims)?;
        if found.is_some() {
            return Ok(found);
        }
    }
    Ok(None)
}

/// The set of an envelope, in a group with this GS, if it is asked for and the guide doesn't take it.
fn unmet_set(
    alloc: Global,
    text: &[u8],
    guide: &Guide,
    st01: Option<&[u8]>,
    group: &SegView,
    set: &SetEnvelope,
    delims: Delims,
) -> Result<Option<Unmet>, NoMemory>
    requires { IsSetSpan text.now (span_of delims set.now) }
    ensures { IfOk result (λ found. found ≡ None
        → IsTakenIn (guide_of guide.now) (option_map (λ t. t.now) st01.entry) text.now delims group.now set.now) }
{
    if !is_asked(st01, &set.header) {
        return Ok(None);
    }
    let start = set.header.start();
    if !is_for(guide.rows(), group, &set.header) {
        return Ok(Some(Unmet {
            start,
            words: another_kind(alloc)?,
        }));
    }
    let checked = check_set(alloc, text, set.span(delims), Some(guide))?;
    if checked.is_clean() {
        return Ok(None);
    }
    Ok(Some(Unmet {
        start,
        words: why_unmet(alloc, &checked)?,
    }))
}

/// Whether a set with this ST is asked for.
pub(crate) fn is_asked(st01: Option<&[u8]>, header: &SegView) -> bool
    ensures { result ≡ is_asked_in (option_map (λ t. t.now) st01.entry) header.now }
{
    match st01 {
        None => true,
        Some(id) => header.element(1) == id,
    }
}

/// Whether a set with this ST in a group with this GS is one for the guide of these rows.
fn is_for(rows: &GuideRows, group: &SegView, header: &SegView) -> bool
    ensures { IsTrue result → IsFor (guide_of rows.now) group.now header.now }
{
    group.element(1) == rows.head.group.as_slice()
        && group.element(8) == rows.head.version.as_slice()
        && header.element(1) == rows.head.set.as_slice()
}
