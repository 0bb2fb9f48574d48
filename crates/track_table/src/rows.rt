ghost use Rattle.std.specs.Prelude.{◌≡◌, ◌<◌, ◌++◌, ◌∷◌, [], List, Some, IfOk, OnOk, length, slice_get, slice_index_or};
ghost use Rattle.env_index.specs.Words.{GroupEntry};
ghost use Rattle.answered_sets.specs.Judged.{PlacedValue, sets_of};
ghost use Rattle.partner_setup.specs.Setup.{route_of};
ghost use Rattle.partner_setup.specs.Sound.{AreApart, AreWithin};
ghost use Rattle.x12_segs.specs.Words.{element_of};
ghost use Rattle.track_table.specs.Cells as cells;
ghost use Rattle.csv_fields.specs.Csv.{cells_text, fields_text, record_text, table_text};
ghost use Rattle.track_table.specs.Rows as rows;
ghost use Rattle.track_table.specs.Walking.{AreAmid, AreBehind, HasRows, ends_text, line_of, outcome_texts, row_text, set_text, sets_text};

use crate::cells::{append_group, append_interchange, append_set};
use crate::cursor::Cursor;
use crate::ends::{append_plain, append_row};
use crate::notes::{GroupNotes, Notes};
use crate::tracking::Tracking;
use answered_sets::{JudgedInterchange, PlacedSet, is_fa, is_refused};
use csv_fields::{append_end, append_fields};
use env_index::GroupEnvelope;
use hub_kinds::{GroupVerdict, NoMemory};
use mailbox::is_deliverable;
use night_report::verdict_at;

/// A target of a route, by its number from 0.
fn target_at(route: &[usize], t: usize) -> usize
    requires { t < length route.now }
    ensures { slice_get route.now t ≡ Some result }
{
    route[t]
}

/// Writes a row for each of these targets of a set's route, after these first fields.
fn append_targets<'a>(
    out: &mut Vec<u8>,
    cursors: &mut [Cursor<'a>],
    by: &Tracking<'_, '_>,
    line: &[u8],
    placed: &PlacedSet<'_, '_, 'a>,
    route: &[usize],
) -> Result<(), NoMemory>
    requires within { AreWithin (length cursors.old) route.now }
    requires apart { AreApart route.now }
    ensures count { OnOk result (length cursors.new ≡ length cursors.old) }
    ensures rows { OnOk result ((before : List PlacedValue) → AreBehind by.now before cursors.old
        → (out.new.items ≡ out.old.items ++ outcome_texts by.now before line.now placed.now route.now)
        × AreAmid by.now before placed.now route.now cursors.new) }
{
    for t in 0..route.len() {
        let to = target_at(route, t);
        append_row(out, cursors, by, line, placed, to)?;
    }
    Ok(())
}

/// Writes the row of a set that no receiver is named for, after these first fields.
fn append_other(out: &mut Vec<u8>, line: &[u8], outcome: &[u8]) -> Result<(), NoMemory>
    ensures { OnOk result (out.new.items ≡ out.old.items ++ row_text line.now (cells.plain_end outcome.now)) }
{
    out.extend_from_slice(line)?;
    append_plain(out, outcome)?;
    append_end(out)
}

/// What became of a set that nobody may get.
fn other_outcome(placed: &PlacedSet<'_, '_, '_>) -> &'static [u8]
    ensures { cells.plain_end result.now ≡ rows.other_end placed.now }
{
    if is_fa(&placed.group()) {
        b"listed"
    } else {
        b"rejected"
    }
}

/// Writes the rows of a set after its first fields, its group's route being this.
fn append_ends<'a>(
    out: &mut Vec<u8>,
    cursors: &mut [Cursor<'a>],
    by: &Tracking<'_, '_>,
    line: &[u8],
    placed: &PlacedSet<'_, '_, 'a>,
    route: &[usize],
) -> Result<(), NoMemory>
    requires route { route.now ≡ route_of by.now.setup (element_of placed.now.group.header 3) }
    requires within { AreWithin (length cursors.old) route.now }
    requires apart { AreApart route.now }
    ensures count { OnOk result (length cursors.new ≡ length cursors.old) }
    ensures rows { OnOk result (HasRows by.now (λ before. ends_text by.now before line.now placed.now) (placed.now ∷ [])
        out.old.items out.new.items cursors.old cursors.new) }
{
    if !is_deliverable(placed) {
        return append_other(out, line, other_outcome(placed));
    }
    if route.is_empty() {
        return append_other(out, line, b"held route");
    }
    append_targets(out, cursors, by, line, placed, route)
}

/// Writes the first fields of a set's rows after those of its group.
fn append_line(
    out: &mut Vec<u8>,
    by: &Tracking<'_, '_>,
    head: &[u8],
    placed: &PlacedSet<'_, '_, '_>,
    notes: &GroupNotes,
) -> Result<(), NoMemory>
    ensures { OnOk result (out.new.items ≡ out.old.items ++ line_of by.now head.now notes.now placed.now) }
{
    out.extend_from_slice(head)?;
    append_set(by.alloc, out, by.documents, placed, notes)
}

/// The first fields of a set's rows.
fn line_of(
    by: &Tracking<'_, '_>,
    head: &[u8],
    placed: &PlacedSet<'_, '_, '_>,
    notes: &GroupNotes,
) -> Result<Vec<u8>, NoMemory>
    ensures { IfOk result (λ line. line.items ≡ line_of by.now head.now notes.now placed.now) }
{
    let mut line = Vec::new(by.alloc);
    append_line(&mut line, by, head, placed, notes)?;
    Ok(line)
}

/// Writes the rows of a set of a group with these first fields, these notes and this route.
fn append_set_rows<'a>(
    out: &mut Vec<u8>,
    cursors: &mut [Cursor<'a>],
    by: &Tracking<'_, '_>,
    head: &[u8],
    placed: &PlacedSet<'_, '_, 'a>,
    notes: &GroupNotes,
    route: &[usize],
) -> Result<(), NoMemory>
    requires route { route.now ≡ route_of by.now.setup (element_of placed.now.group.header 3) }
    requires within { AreWithin (length cursors.old) route.now }
    requires apart { AreApart route.now }
    ensures count { OnOk result (length cursors.new ≡ length cursors.old) }
    ensures rows { OnOk result (HasRows by.now (λ before. set_text by.now head.now notes.now before placed.now) (placed.now ∷ [])
        out.old.items out.new.items cursors.old cursors.new) }
{
    let line = line_of(by, head, placed, notes)?;
    append_ends(out, cursors, by, line.as_slice(), placed, route)
}

/// Writes the rows of the sets of group `k` of an interchange, counted from 0, after these first fields.
fn append_sets<'a>(
    out: &mut Vec<u8>,
    cursors: &mut [Cursor<'a>],
    by: &Tracking<'_, '_>,
    head: &[u8],
    judged: &JudgedInterchange<'_, 'a>,
    k: usize,
    notes: &GroupNotes,
) -> Result<(), NoMemory>
    requires within { k < length judged.now.interchange.content.groups }
    requires count { length cursors.old ≡ length by.now.setup.partners }
    ensures count { OnOk result (length cursors.new ≡ length cursors.old) }
    ensures rows { OnOk result ((g : GroupEntry) → slice_get judged.now.interchange.content.groups k ≡ Some g
        → HasRows by.now (λ before. sets_text by.now head.now notes.now before (rows.sets_at judged.now k g)) (rows.sets_at judged.now k g)
        out.old.items out.new.items cursors.old cursors.new) }
{
    let group = judged.interchange().group(k);
    let header = group.header();
    let route = by.setup.route_of(header.element(3));
    for s in 0..group.set_count() {
        let placed = PlacedSet::new(judged, k, s);
        append_set_rows(out, cursors, by, head, &placed, notes, route)?;
    }
    Ok(())
}

/// Writes the first fields of the rows of a group of interchange `n` with this verdict and these notes.
fn append_head(
    out: &mut Vec<u8>,
    by: &Tracking<'_, '_>,
    n: u64,
    judged: &JudgedInterchange<'_, '_>,
    group: &GroupEnvelope<'_, '_>,
    verdict: GroupVerdict,
    notes: &GroupNotes,
) -> Result<(), NoMemory>
    ensures { OnOk result (out.new.items ≡ out.old.items ++ cells_text (cells.interchange_cells by.now.setup n judged.now
        ++ cells.group_cells group.now verdict notes.now.codes)) }
{
    append_interchange(out, by.setup, n, judged)?;
    append_group(by.alloc, out, group, verdict, notes.codes.as_slice())
}

/// The first fields of the rows of a group of interchange `n` with this verdict and these notes.
fn head_of(
    by: &Tracking<'_, '_>,
    n: u64,
    judged: &JudgedInterchange<'_, '_>,
    group: &GroupEnvelope<'_, '_>,
    verdict: GroupVerdict,
    notes: &GroupNotes,
) -> Result<Vec<u8>, NoMemory>
    ensures { IfOk result (λ head. head.items ≡ cells_text (cells.interchange_cells by.now.setup n judged.now
        ++ cells.group_cells group.now verdict notes.now.codes)) }
{
    let mut head = Vec::new(by.alloc);
    append_head(&mut head, by, n, judged, group, verdict, notes)?;
    Ok(head)
}

/// Writes the rows of group `k` of interchange `n`, with these notes.
fn append_group_rows<'a>(
    out: &mut Vec<u8>,
    cursors: &mut [Cursor<'a>],
    by: &Tracking<'_, '_>,
    n: u64,
    judged: &JudgedInterchange<'_, 'a>,
    k: usize,
    notes: &GroupNotes,
) -> Result<(), NoMemory>
    requires within { k < length judged.now.interchange.content.groups }
    requires count { length cursors.old ≡ length by.now.setup.partners }
    ensures count { OnOk result (length cursors.new ≡ length cursors.old) }
    ensures rows { OnOk result ((g : GroupEntry) → slice_get judged.now.interchange.content.groups k ≡ Some g
        → HasRows by.now (λ before. table_text (rows.sets_rows by.now n before notes.now (rows.sets_at judged.now k g)))
        (rows.sets_at judged.now k g) out.old.items out.new.items cursors.old cursors.new) }
{
    let group = judged.interchange().group(k);
    let verdict = verdict_at(judged.standings(), k);
    let head = head_of(by, n, judged, &group, verdict, notes)?;
    append_sets(out, cursors, by, head.as_slice(), judged, k, notes)
}

/// The notes of group `k`, counted from 0: these, where it has none.
fn noted_at<'n>(notes: &'n [GroupNotes], k: usize, other: &'n GroupNotes) -> &'n GroupNotes
    ensures { result.now ≡ slice_index_or notes.now k other.now }
{
    match notes.get(k) {
        Some(found) => found,
        None => other,
    }
}

/// Writes the rows of group `k` of interchange `n`, whose groups have these notes.
fn append_noted_group<'a>(
    out: &mut Vec<u8>,
    cursors: &mut [Cursor<'a>],
    by: &Tracking<'_, '_>,
    n: u64,
    judged: &JudgedInterchange<'_, 'a>,
    k: usize,
    notes: &[GroupNotes],
) -> Result<(), NoMemory>
    requires within { k < length judged.now.interchange.content.groups }
    requires count { length cursors.old ≡ length by.now.setup.partners }
    ensures count { OnOk result (length cursors.new ≡ length cursors.old) }
    ensures rows { OnOk result ((g : GroupEntry) → slice_get judged.now.interchange.content.groups k ≡ Some g
        → HasRows by.now (λ before. table_text (rows.sets_rows by.now n before (rows.notes_at notes.now k) (rows.sets_at judged.now k g)))
        (rows.sets_at judged.now k g) out.old.items out.new.items cursors.old cursors.new) }
{
    let none = GroupNotes::none(by.alloc);
    append_group_rows(out, cursors, by, n, judged, k, noted_at(notes, k, &none))
}

/// Writes the rows of the groups of interchange `n`, which have these notes.
fn append_groups<'a>(
    out: &mut Vec<u8>,
    cursors: &mut [Cursor<'a>],
    by: &Tracking<'_, '_>,
    n: u64,
    judged: &JudgedInterchange<'_, 'a>,
    notes: &[GroupNotes],
) -> Result<(), NoMemory>
    requires { length cursors.old ≡ length by.now.setup.partners }
    ensures count { OnOk result (length cursors.new ≡ length cursors.old) }
    ensures rows { OnOk result (HasRows by.now
        (λ before. table_text (rows.groups_rows by.now n before judged.now notes.now 0 judged.now.interchange.content.groups))
        (sets_of judged.now) out.old.items out.new.items cursors.old cursors.new) }
{
    for k in 0..judged.interchange().group_count() {
        append_noted_group(out, cursors, by, n, judged, k, notes)?;
    }
    Ok(())
}

/// Writes the fields of a group and of a set, where there are none.
fn append_no_set(out: &mut Vec<u8>) -> Result<(), NoMemory>
    ensures { OnOk result (out.new.items ≡ out.old.items ++ fields_text cells.no_set_cells) }
{
    let none: &[u8] = b"";
    append_fields(
        out,
        &[
            none, none, none, none, none, none, none, none, none, none, none, none,
        ],
    )
}

/// Writes the row of interchange `n`, which is refused.
fn append_refused(
    out: &mut Vec<u8>,
    by: &Tracking<'_, '_>,
    n: u64,
    judged: &JudgedInterchange<'_, '_>,
) -> Result<(), NoMemory>
    ensures { OnOk result (out.new.items ≡ out.old.items ++ record_text (rows.refused_row by.now n judged.now)) }
{
    append_interchange(out, by.setup, n, judged)?;
    append_no_set(out)?;
    append_plain(out, b"refused")?;
    append_end(out)
}

/// Writes the rows of interchange `n`, counted from 1, with these notes.
fn append_rows<'a>(
    out: &mut Vec<u8>,
    cursors: &mut [Cursor<'a>],
    by: &Tracking<'_, '_>,
    n: u64,
    judged: &JudgedInterchange<'_, 'a>,
    notes: &Notes,
) -> Result<(), NoMemory>
    requires { length cursors.old ≡ length by.now.setup.partners }
    ensures count { OnOk result (length cursors.new ≡ length cursors.old) }
    ensures rows { OnOk result (HasRows by.now (λ before. table_text (rows.interchange_rows by.now n before judged.now notes.now))
        (sets_of judged.now) out.old.items out.new.items cursors.old cursors.new) }
{
    if is_refused(judged) {
        return append_refused(out, by, n, judged);
    }
    append_groups(out, cursors, by, n, judged, notes.groups.as_slice())
}

/// Writes the rows of all interchanges of the night.
pub(crate) fn append_all<'a>(
    out: &mut Vec<u8>,
    cursors: &mut [Cursor<'a>],
    by: &Tracking<'_, '_>,
    interchanges: &[JudgedInterchange<'_, 'a>],
) -> Result<(), NoMemory>
    requires behind { AreBehind by.now [] cursors.old }
    requires notes { length by.now.night ≡ length interchanges.now }
    ensures { OnOk result (out.new.items ≡ out.old.items ++ table_text (rows.rows_from by.now 1 [] interchanges.now by.now.night)) }
{
    for i in 0..interchanges.len() {
        append_rows(
            out,
            cursors,
            by,
            i as u64 + 1,
            &interchanges[i],
            &by.night[i],
        )?;
    }
    Ok(())
}
