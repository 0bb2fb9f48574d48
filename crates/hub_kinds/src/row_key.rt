//! The keys of rows, by which faults are put in order without their texts.
ghost use Rattle.std.specs.Prelude.{◌≡◌, ◌∷◌, [], length, IsTrue};
ghost use Rattle.std.specs.Cmp.Lexicographic.{slice_cmp};
ghost use Rattle.std.specs.List.Sorted.{IsBinarySearchResult, IsSearchInRange};
ghost use Rattle.std.specs.Ordering.{eq_by_cmp, nat_cmp};
ghost use Rattle.hub_kinds.specs.Rising.{IsRisingBy, order_by};
ghost use Rattle.hub_kinds.specs.Rows.{IsOnceEach, is_whole, packed_key, row_key};

use crate::codes::SegmentCode;
use crate::fault::{Fault, element_rank, key, segment_rank};
use crate::row::{Row, RowKind};
use crate::row_fault::{whole_fault, whole_index};
use std::cmp::Ordering;

/// The key of the numbers of a row, with the ranks of its codes.
fn packed_key(row: &Row, segment: u64, element: u64) -> [u64; 7]
    ensures { result ≡ packed_key row.now segment element }
{
    [
        u64::from(row.position),
        segment,
        u64::from(row.slot),
        u64::from(row.element),
        u64::from(row.component),
        u64::from(row.repetition),
        element,
    ]
}

fn segment_key(row: &Row, segment: u64) -> [u64; 7]
    ensures { result ≡ row.now.position ∷ segment ∷ row.now.slot ∷ 0 ∷ 0 ∷ 0 ∷ 0 ∷ [] }
{
    [
        u64::from(row.position),
        segment,
        u64::from(row.slot),
        0,
        0,
        0,
        0,
    ]
}

/// The key of the fault of a row.
pub(crate) fn row_key(whole: &[Fault], row: &Row) -> [u64; 7]
    ensures { result ≡ row_key whole.now row.now }
{
    match row.kind {
        RowKind::Segment(code) => segment_key(row, segment_rank(code)),
        RowKind::Element(code) => packed_key(
            row,
            segment_rank(SegmentCode::ElementErrors),
            element_rank(code),
        ),
        RowKind::Whole => key(&whole_fault(whole, whole_index(row))),
    }
}

fn is_whole(row: &Row) -> bool
    ensures { result ≡ is_whole row.now.kind }
{
    matches!(row.kind, RowKind::Whole)
}

/// Which of two rows comes first.
fn row_order(whole: &[Fault], a: &Row, b: &Row) -> Ordering
    ensures { result ≡ order_by (row_key whole.now) a.now b.now }
{
    if a.position == b.position || is_whole(a) || is_whole(b) {
        row_key(whole, a).cmp(&row_key(whole, b))
    } else {
        a.position.cmp(&b.position)
    }
}

fn has_same_key(whole: &[Fault], a: &Row, b: &Row) -> bool
    ensures { result ≡ eq_by_cmp (order_by (row_key whole.now)) a.now b.now }
{
    row_order(whole, a, b).is_eq()
}

/// Whether each row comes before the next.
fn are_rising(whole: &[Fault], rows: &[Row]) -> bool
    ensures { IsTrue result → IsRisingBy (row_key whole.now) rows.now }
{
    rows.is_sorted_by(|a, b| row_order(whole, a, b).is_lt())
}

/// Sorts rows by their keys, and keeps one with each key.
fn sort_rows(whole: &[Fault], rows: &mut Vec<Row>)
    ensures { IsOnceEach (row_key whole.now) rows.old.items rows.new.items }
{
    rows.sort_unstable_by(|a, b| row_order(whole, a, b));
    rows.dedup_by(|next, kept| has_same_key(whole, next, kept));
}

/// Puts rows in the order of their keys, one with each key.
pub(crate) fn put_in_order(whole: &[Fault], rows: &mut Vec<Row>)
    ensures { IsOnceEach (row_key whole.now) rows.old.items rows.new.items }
{
    if !are_rising(whole, rows.as_slice()) {
        sort_rows(whole, rows);
    }
}

/// Where a row with this key is, if the rows are in order.
pub(crate) fn search_rows(whole: &[Fault], rows: &[Row], wanted: &[u64; 7]) -> Result<usize, usize>
    ensures bound { IsSearchInRange result (length rows.now) }
    ensures position { IsBinarySearchResult (λ row. slice_cmp nat_cmp (row_key whole.now row) wanted.now) rows.now result }
{
    rows.binary_search_by(|row| row_key(whole, row).cmp(wanted))
}
