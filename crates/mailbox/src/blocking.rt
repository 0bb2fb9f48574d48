ghost use Rattle.std.specs.Prelude.{◌≡◌, ◌-◌, true, false, is_some, take, drop, if◌then◌else◌};
ghost use Rattle.std.specs.Bool.{OnTrue};
ghost use Rattle.std.specs.List.{list_any, remove};
ghost use Rattle.env_index.specs.declared.entry.SetEnvelope.{SetEnvelope};
ghost use Rattle.answered_sets.specs.Judged.{delims_in};
ghost use Rattle.mailbox.specs.Deliveries.{inner_in, is_blocked, collides, has_collision, kept_parts};
ghost use Rattle.mailbox.specs.Blocking.{AllShared, is_foreign, is_foreign_if};

use answered_sets::PlacedSet;
use env_index::SetEnvelope;
use memchr::memchr;
use x12_bytes::Delims;
use x12_segs::{Parts, SegView, Segments};
use x12_write::is_delimiter;

/// Whether a byte isn't a delimiter where it comes from, and one where it goes to.
fn collides(from: &Delims, to: &Delims, byte: u8) -> bool
    ensures { result ≡ collides from.now to.now byte }
{
    !is_delimiter(from, byte) && is_delimiter(to, byte)
}

fn has_collision(from: &Delims, to: &Delims, text: &[u8]) -> bool
    ensures { result ≡ has_collision from.now to.now text.now }
{
    text.iter().any(|byte| collides(from, to, *byte))
}

/// Whether a byte of what is kept of an ST is in the way. Most are seen to be clear by all their bytes.
fn is_header_blocked(from: &Delims, to: &Delims, header: &SegView<'_>) -> bool
    ensures { result ≡ list_any (has_collision from.now to.now) (kept_parts header.now) }
{
    if is_clear(from, to, header.bytes()) {
        return false;
    }
    are_header_parts_blocked(from, to, header)
}

fn are_header_parts_blocked(from: &Delims, to: &Delims, header: &SegView<'_>) -> bool
    ensures { result ≡ list_any (has_collision from.now to.now) (kept_parts header.now) }
{
    has_collision(from, to, header.id()) || are_kept_blocked(from, to, header.elements())
}

/// Whether a byte of an ST's elements but the second is in the way.
fn are_kept_blocked(from: &Delims, to: &Delims, elements: Parts<'_>) -> bool
    ensures { result ≡ list_any (has_collision from.now to.now) (remove elements.entry 1) }
{
    let mut left = elements;
    let first = is_next_blocked(from, to, &mut left);
    let _number = left.next();
    let more = are_left_blocked(from, to, left);
    first || more
}

fn is_next_blocked(from: &Delims, to: &Delims, left: &mut Parts<'_>) -> bool
    ensures first { result ≡ list_any (has_collision from.now to.now) (take 1 left.old) }
    ensures rest { left.new ≡ drop 1 left.old }
{
    match left.next() {
        Some(part) => has_collision(from, to, part),
        None => false,
    }
}

fn are_left_blocked(from: &Delims, to: &Delims, left: Parts<'_>) -> bool
    ensures { result ≡ list_any (has_collision from.now to.now) left.entry }
{
    let mut left = left;
    left.any(|part| has_collision(from, to, part))
}

/// Whether a byte of the first `most` segments of those that are left is in the way.
fn are_segments_blocked(from: &Delims, to: &Delims, mut left: Segments<'_>, most: u64) -> bool
    ensures { result ≡ list_any (λ seg. has_collision from.now to.now seg.bytes) (take most left.entry) }
{
    let mut count = most;
    while count > 0 {
        match left.next() {
            Some(seg) => {
                if has_collision(from, to, seg.bytes()) {
                    return true;
                }
            }
            None => return false,
        }
        count -= 1;
    }
    false
}

/// Whether each delimiter of the receiver is one of the source's, so that nothing can be in the way.
fn are_shared(from: &Delims, to: &Delims) -> bool
    ensures { result ≡ true → AllShared from.now to.now }
{
    let repetition = match to.repetition {
        Some(separator) => is_delimiter(from, separator),
        None => true,
    };
    repetition
        && is_delimiter(from, to.element)
        && is_delimiter(from, to.component)
        && is_delimiter(from, to.terminator)
}

/// Whether in what is kept of a set, its SE left aside, a byte is that isn't a delimiter there and one of the receiver's.
pub(crate) fn is_blocked(to: &Delims, placed: &PlacedSet<'_, '_, '_>) -> bool
    ensures { result ≡ is_blocked to.now placed.now }
{
    let from = placed.delims();
    if are_shared(&from, to) {
        return false;
    }
    has_blocking_byte(&from, to, placed)
}

fn has_blocking_byte(from: &Delims, to: &Delims, placed: &PlacedSet<'_, '_, '_>) -> bool
    requires { from.now ≡ delims_in placed.now }
    ensures { result ≡ is_blocked to.now placed.now }
{
    let set = placed.set();
    is_header_blocked(from, to, &set.header) || is_inner_blocked(from, to, placed, &set)
}

/// Whether a byte of the segments between ST and SE is in the way. Most sets are seen to be clear without looking at their segments.
fn is_inner_blocked<'a>(
    from: &Delims,
    to: &Delims,
    placed: &PlacedSet<'_, '_, 'a>,
    set: &SetEnvelope<'a>,
) -> bool
    requires { set.now ≡ placed.now.set }
    ensures { result ≡ list_any (λ seg. has_collision from.now to.now seg.bytes) (inner_in placed.now) }
{
    if is_clear(from, to, placed.stretch(set)) {
        return false;
    }
    are_segments_blocked(from, to, placed.behind_header(set), inner_count(set))
}

/// Whether surely no byte of a text is in the way.
fn is_clear(from: &Delims, to: &Delims, text: &[u8]) -> bool
    ensures { OnTrue result (has_collision from.now to.now text.now ≡ false) }
{
    if !cannot_collide(from, to.element, text) {
        return false;
    }
    if !cannot_collide(from, to.component, text) {
        return false;
    }
    if !cannot_collide(from, to.terminator, text) {
        return false;
    }
    repetition_cannot_collide(from, to.repetition, text)
}

fn repetition_cannot_collide(from: &Delims, repetition: Option<u8>, text: &[u8]) -> bool
    ensures { OnTrue result (list_any (is_foreign_if from.now repetition) text.now ≡ false) }
{
    match repetition {
        Some(separator) => cannot_collide(from, separator, text),
        None => true,
    }
}

/// Whether a byte is a delimiter where a text comes from, or isn't in it.
fn cannot_collide(from: &Delims, byte: u8, text: &[u8]) -> bool
    ensures { OnTrue result (list_any (is_foreign from.now byte) text.now ≡ false) }
{
    is_delimiter(from, byte) || memchr(byte, text).is_none()
}

/// How many segments are between ST and SE.
pub(crate) fn inner_count(set: &SetEnvelope<'_>) -> u64
    ensures { result ≡ (if is_some set.now.trailer then set.now.segments - 2 else set.now.segments - 1) }
{
    if set.trailer.is_some() {
        set.segments.saturating_sub(2)
    } else {
        set.segments.saturating_sub(1)
    }
}
