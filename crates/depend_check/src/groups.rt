ghost use Rattle.std.specs.Prelude.{◌≡◌, ◌↔◌, is_some};
ghost use Rattle.std.specs.Cmp.Lexicographic.{slice_cmp};
ghost use Rattle.std.specs.List.{Contains, filter};
ghost use Rattle.std.specs.Ordering.{is_le, is_lt, nat_cmp};
ghost use Rattle.loop_match.specs.PlacedSegments.{PlacedSegment};
ghost use Rattle.loop_match.specs.Viewed.{placed_views};
ghost use Rattle.depend_check.specs.Uses.{is_labelled, label_of, label_at, AreByLabel, HaveSameUses};

use guide_tree::Slot;
use loop_match::PlacedSeg;
use std::cmp::Ordering;

/// The label of a slot; empty where it has none.
fn label_of(slot: &Slot) -> &[u8]
    ensures { result.now ≡ label_of slot.entry.now }
{
    match &slot.label {
        None => b"",
        Some(own) => own.as_slice(),
    }
}

fn by_label(a: &PlacedSeg, b: &PlacedSeg) -> Ordering
    ensures { result ≡ slice_cmp nat_cmp (label_at a.now) (label_at b.now) }
{
    label_of(a.slot).cmp(label_of(b.slot))
}

fn has_a_label(slot: &Slot) -> bool
    ensures { result ≡ is_some slot.now.label }
{
    slot.label.is_some()
}

/// Lets go of the uses of slots without a label, which no dependency names.
pub(crate) fn keep_labelled(placed: &mut Vec<PlacedSeg>)
    ensures { placed_views placed.new.items ≡ filter is_labelled (placed_views placed.old.items) }
{
    placed.retain(|one| has_a_label(one.slot));
}

/// Brings placed segments into the order of their slots' labels, so that the uses of a slot are side by side.
pub(crate) fn sort_by_label(placed: &mut Vec<PlacedSeg>)
    ensures same { (p : PlacedSegment) → Contains (placed_views placed.new.items) p ↔ Contains (placed_views placed.old.items) p }
    ensures sorted { AreByLabel placed.new.items }
{
    placed.sort_unstable_by(|a, b| by_label(a, b));
}

fn is_before(label: &[u8], placed: &PlacedSeg) -> bool
    ensures { result ≡ is_lt (slice_cmp nat_cmp (label_at placed.now) label.now) }
{
    label_of(placed.slot).cmp(label).is_lt()
}

fn is_not_behind(label: &[u8], placed: &PlacedSeg) -> bool
    ensures { result ≡ is_le (slice_cmp nat_cmp (label_at placed.now) label.now) }
{
    label_of(placed.slot).cmp(label).is_le()
}

/// The uses of the slot with a label, among segments in the order of labels. Its clause asks that they are among what is given and
/// that none is left out; that no others are is a matter of cost alone, since what is asked of them looks at the label again.
pub(crate) fn uses_of<'x, 's, 'a, 'g>(
    label: &[u8],
    placed: &'x [PlacedSeg<'s, 'a, 'g>],
) -> &'x [PlacedSeg<'s, 'a, 'g>]
    requires { AreByLabel placed.now }
    ensures { HaveSameUses label.now (placed_views result.now) (placed_views placed.entry.now) }
{
    let from = placed.partition_point(|one| is_before(label, one));
    let rest = &placed[from..];
    let to = rest.partition_point(|one| is_not_behind(label, one));
    &rest[..to]
}
