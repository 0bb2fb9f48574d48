ghost use Rattle.std.specs.Prelude.{◌≡◌, ◌≤◌, ℕ, Bool, false, slice_index_or, drop, length, map, take};
ghost use Rattle.std.specs.List.{list_any};
ghost use Rattle.x12_segs.specs.Words.{IsSetSpan, span_views, views};
ghost use Rattle.hub_kinds.specs.declared.set_codes.Verdict.TheVariants as the_verdict;

use crate::judged::JudgedInterchange;
use env_index::{GroupEnvelope, SetEnvelope};
use hub_kinds::Verdict;
use std::marker::Model;
use x12_bytes::Delims;
use x12_segs::{Segments, SetSpan};

/// A set (X12.6) with what is above it, lent by the numbers of its group and of itself: 24 bytes.
#[derive(Drop)]
pub struct PlacedSet<'j, 'i, 'a> {
    interchange: &'j JudgedInterchange<'i, 'a>,
    group: usize,
    set: usize,
}

impl<'j, 'i, 'a> Model for PlacedSet<'j, 'i, 'a> {
    ghost use Rattle.answered_sets.specs.Judged.{PlacedValue};
    ghost use Rattle.answered_sets.specs.Placed.{IsPlace, placed_at};

    ghost Value = { PlacedValue };

    ghost view = { λ p. placed_at p.interchange.now p.group p.set };

    ghost invariant = { λ p. IsPlace p.interchange.now p.group p.set };
}

impl<'j, 'i, 'a> PlacedSet<'j, 'i, 'a> {
    ghost use Rattle.std.specs.Prelude.{◌≡◌, ◌<◌, ℕ, Bool, false, Some, drop, length, map, slice_get};
    ghost use Rattle.std.specs.List.{list_any};
    ghost use Rattle.env_index.specs.declared.entry.SetEnvelope.{SetEnvelope};
    ghost use Rattle.env_index.specs.Summary.{GroupEntry};
    ghost use Rattle.answered_sets.specs.Judged.{delims_in, segments_in, standing_at, verdict_by_standing};
    ghost use Rattle.answered_sets.specs.Placed.{group_at, placed_at};
    ghost use Rattle.x12_segs.specs.Words.{views};

    /// A set of an interchange, by the number of its group and its own in the group, both counted from 0.
    pub fn new(interchange: &'j JudgedInterchange<'i, 'a>, group: usize, set: usize) -> Self
        requires group { group < length interchange.now.interchange.content.groups }
        requires set { (g : GroupEntry) → slice_get interchange.now.interchange.content.groups group ≡ Some g → set < length g.sets }
        ensures value { (g : GroupEntry) (s : SetEnvelope)
            → slice_get interchange.entry.now.interchange.content.groups group ≡ Some g
            → slice_get g.sets set ≡ Some s
            → result ≡ record {
              interchange = interchange.entry.now;
              group = g;
              standing = standing_at interchange.entry.now.standings group;
              index = set;
              set = s;
            } }
        ensures placed { result ≡ placed_at interchange.entry.now group set }
    {
        PlacedSet {
            interchange,
            group,
            set,
        }
    }

    /// This set, lent again.
    pub fn again(&self) -> PlacedSet<'j, 'i, 'a>
        ensures { result ≡ self.now }
    {
        PlacedSet {
            interchange: self.interchange,
            group: self.group,
            set: self.set,
        }
    }

    /// The interchange that it is in.
    pub fn interchange(&self) -> &'j JudgedInterchange<'i, 'a>
        ensures { result.now ≡ self.now.interchange }
    {
        self.interchange
    }

    /// The delimiters that it is read by.
    pub fn delims(&self) -> Delims
        ensures { result ≡ delims_in self.now }
    {
        let judged = self.interchange;
        judged.interchange().header().delims()
    }

    /// The group that it is in.
    pub fn group(&self) -> GroupEnvelope<'_, 'a>
        ensures { result ≡ self.now.group }
    {
        let judged = self.interchange;
        judged.interchange().group(self.group)
    }

    /// Its number in its group, from 0.
    pub fn index(&self) -> usize
        ensures { result ≡ self.now.index }
    {
        self.set
    }

    /// Its envelope.
    pub fn set(&self) -> SetEnvelope<'a>
        ensures { result ≡ self.now.set }
    {
        self.group().set(self.set)
    }

    /// The segments after its ST, its SE among them.
    pub fn behind_header(&self, set: &SetEnvelope<'a>) -> Segments<'a>
        requires { set.now ≡ self.now.set }
        ensures { result ≡ drop 1 (segments_in self.now) }
    {
        let interchange = self.interchange.interchange();
        let span = set.span(interchange.header().delims());
        let mut segments = segments_in(self.interchange.text(), &span);
        let _header = segments.next();
        segments
    }

    /// The stretch of the text in which its segments are.
    pub fn stretch(&self, set: &SetEnvelope<'a>) -> &'a [u8]
        requires { set.now ≡ self.now.set }
        ensures { (test : ℕ → Bool) → list_any test result.now ≡ false
            → list_any (λ seg. list_any test seg.bytes) (segments_in self.now) ≡ false }
    {
        let interchange = self.interchange.interchange();
        let span = set.span(interchange.header().delims());
        stretch_in(self.interchange.text(), &span)
    }

    /// The stretch of the text after its ST: read alone, it has the segments after its ST.
    pub fn stretch_behind_header(&self, set: &SetEnvelope<'a>) -> &'a [u8]
        requires { set.now ≡ self.now.set }
        ensures { map (λ seg. seg.bytes) (drop 1 (segments_in self.now))
            ≡ map (λ seg. seg.bytes) (views result.now (delims_in self.now)) }
    {
        let interchange = self.interchange.interchange();
        let span = set.span(interchange.header().delims());
        behind_first(self.interchange.text(), &span)
    }

    /// Whether its group has no code (999 guide, AK905).
    pub fn is_clear(&self) -> bool
        ensures { result ≡ self.now.standing.clear }
    {
        match self.interchange.standings().get(self.group) {
            Some(standing) => standing.clear,
            None => false,
        }
    }

    /// The verdict on it (999 guide, IK501).
    pub fn verdict(&self) -> Verdict
        ensures { result ≡ verdict_by_standing self.now }
    {
        match self.interchange.standings().get(self.group) {
            Some(standing) => verdict_at(standing.verdicts.as_slice(), self.set),
            None => Verdict::Rejected,
        }
    }
}

/// A verdict by its number; rejected where there is none.
fn verdict_at(verdicts: &[Verdict], n: usize) -> Verdict
    ensures { result ≡ slice_index_or verdicts.now n the_verdict.Rejected }
{
    match verdicts.get(n) {
        Some(verdict) => *verdict,
        None => Verdict::Rejected,
    }
}

/// The bytes in which the segments of a set's span are.
fn stretch_in<'a>(text: &'a [u8], span: &SetSpan) -> &'a [u8]
    requires { IsSetSpan text.now span.now }
    ensures { (test : ℕ → Bool) → list_any test result.now ≡ false
        → list_any (λ seg. list_any test seg.bytes) (span_views text.entry.now span.now) ≡ false }
{
    stretch_of(text, span)
}

/// The bytes of a set's span.
fn stretch_of<'a>(text: &'a [u8], span: &SetSpan) -> &'a [u8]
    requires { IsSetSpan text.now span.now }
    ensures { result.now ≡ drop span.now.start (take span.now.end text.entry.now) }
{
    let front = &text[..span.end];
    &front[span.start..]
}

/// The segments of a set's span.
fn segments_in<'a>(text: &'a [u8], span: &SetSpan) -> Segments<'a>
    requires { IsSetSpan text.now span.now }
    ensures { result ≡ span_views text.entry.now span.now }
{
    span.segments(text)
}

/// The bytes of a text from an offset on.
fn rest_of(text: &[u8], at: usize) -> &[u8]
    requires { at ≤ length text.now }
    ensures { result.now ≡ drop at text.entry.now }
{
    &text[at..]
}

/// The bytes of a text up to an offset.
fn front_of(text: &[u8], end: usize) -> &[u8]
    requires { end ≤ length text.now }
    ensures { result.now ≡ take end text.entry.now }
{
    &text[..end]
}

/// The bytes after the first segment of a set's span.
fn behind_first<'a>(text: &'a [u8], span: &SetSpan) -> &'a [u8]
    requires { IsSetSpan text.now span.now }
    ensures { map (λ seg. seg.bytes) (drop 1 (span_views text.entry.now span.now))
        ≡ map (λ seg. seg.bytes) (views result.now span.now.delims) }
{
    match segments_in(text, span).next() {
        None => front_of(text, 0),
        Some(first) => rest_of(
            front_of(text, span.end),
            first.start() + first.bytes().len() + 1,
        ),
    }
}
