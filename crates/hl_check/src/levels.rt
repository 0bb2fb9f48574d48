ghost use Rattle.std.specs.Prelude.{◌≡◌, ◌<◌, List, length, map, Some, slice_get};
ghost use Rattle.std.specs.Bool.{OnTrue};
ghost use Rattle.guide_tree.specs.Words.{Segment};
ghost use Rattle.hl_check.specs.Hierarchy.{IsHierarchyWhole};
ghost use Rattle.hl_check.specs.Levels.{IsPlaced, HasChildren, LooksWhole};
ghost use Rattle.hl_check.specs.Names.{AreNames};

use crate::names::HlNames;
use crate::rules::{is_count, is_filled, is_listed};
use guide_tree::HlRule;
use hub_kinds::read_number;
use x12_bytes::Delims;

/// How many HLs are looked at.
const MOST_LEVELS: usize = 0xFFFF_FFFF;
/// The most digits of a number by which a parent is sought.
const PLACE_DIGITS: usize = 10;

/// Where the HL would be that a number from 1 on names.
fn place_of(parent: &[u8]) -> usize {
    match read_number(parent, PLACE_DIGITS) {
        None => usize::MAX,
        Some(number) => (number as usize).wrapping_sub(1),
    }
}

/// Whether an HL with this parent and this level is surely a root, or below an earlier one that may have children.
fn is_placed(
    rule: &HlRule,
    delims: Delims,
    names: &[HlNames],
    count: usize,
    parent: &[u8],
    level: &[u8],
) -> bool
    requires { count < length names.now }
    ensures { OnTrue result ((hls : List Segment) → AreNames names.now hls → IsPlaced rule.now delims hls count parent.now level.now) }
{
    if parent.is_empty() {
        return is_listed(rule, None, level);
    }
    let place = place_of(parent);
    if place >= count {
        return false;
    }
    if !is_filled(delims, parent) {
        return false;
    }
    let above = &names[place];
    if above.number() != parent {
        return false;
    }
    if above.child() == b"0".as_slice() {
        return false;
    }
    is_listed(rule, Some(above.level()), level)
}

/// Whether an HL with this number surely has the children that it announces.
fn has_children(
    delims: Delims,
    names: &[HlNames],
    count: usize,
    number: &[u8],
    child: &[u8],
) -> bool
    requires { count < length names.now }
    ensures { OnTrue result ((hls : List Segment) → AreNames names.now hls → HasChildren delims hls count number.now child.now) }
{
    if child != b"1".as_slice() {
        return true;
    }
    if names.len() - count < 2 {
        return false;
    }
    let parent = names[count + 1].parent();
    parent == number && is_filled(delims, parent)
}

/// Whether nothing is surely wrong with the HL with a count, the first being 0.
fn is_whole_at(rule: &HlRule, delims: Delims, names: &[HlNames], count: usize) -> bool
    requires { count < length names.now }
    ensures { OnTrue result ((hls : List Segment) (h : Segment) → AreNames names.now hls → slice_get hls count ≡ Some h
        → LooksWhole rule.now delims hls count h) }
{
    let one = &names[count];
    if !is_count(one.number(), count + 1) {
        return false;
    }
    if !is_placed(rule, delims, names, count, one.parent(), one.level()) {
        return false;
    }
    has_children(delims, names, count, one.number(), one.child())
}

/// Whether surely nothing is wrong with the HLs that have these names, first to last: each is numbered by its count, is below an
/// earlier one or is a root, and those that announce children have one at once. Takes no memory. A whole hierarchy may be answered with
/// `false`. X12.6, hierarchical level segment.
pub fn look_whole(rule: &HlRule, delims: Delims, names: &[HlNames]) -> bool
    ensures { OnTrue result ((hls : List Segment) → AreNames names.now hls → IsHierarchyWhole (Some rule.now) delims hls) }
{
    if names.len() > MOST_LEVELS {
        return false;
    }
    for count in 0..names.len() {
        if !is_whole_at(rule, delims, names, count) {
            return false;
        }
    }
    true
}
