ghost use Rattle.std.specs.Prelude.{◌≡◌, ◌==◌, ◌<◌, ◌++◌, ◌∷◌, [], ℕ, List, OnOk, codes, false, length, slice_get};
ghost use Rattle.std.specs.List.{list_any};
ghost use Rattle.answered_sets.specs.Judged.{PlacedValue};
ghost use Rattle.mailbox.specs.Deliveries.{outcome_at};
ghost use Rattle.mailbox.specs.declared.outcome.Outcome.TheVariants.{DeliveredTo};
ghost use Rattle.track_table.specs.Cells as cells;
ghost use Rattle.csv_fields.specs.Csv.{fields_text};
ghost use Rattle.track_table.specs.Rows as rows;
ghost use Rattle.track_table.specs.Walking.{AreAmid, row_text};

use crate::cursor::{Cursor, key_of};
use crate::hindrance::{Hindrance, hindrance_to};
use crate::mailed::Mailed;
use crate::tracking::Tracking;
use answered_sets::PlacedSet;
use csv_fields::{append_end, append_fields};
use hub_kinds::NoMemory;
use itoa::Buffer;
use mailbox::{Outcome, outcome_at};
use x12_write::PaddedNumber;

/// Writes what became of a set that no receiver is named for.
pub(crate) fn append_plain(out: &mut Vec<u8>, outcome: &[u8]) -> Result<(), NoMemory>
    ensures { OnOk result (out.new.items ≡ out.old.items ++ fields_text (cells.plain_end outcome.now)) }
{
    let none: &[u8] = b"";
    append_fields(out, &[outcome, none, none, none, none, none, none])
}

/// Writes that a set is held for a delimiter of a receiver: which byte, and after how many segments.
fn append_hindrance<'x>(
    out: &mut Vec<u8>,
    byte: &'x [u8],
    segment: &'x [u8],
    name: &'x [u8],
) -> Result<(), NoMemory>
    ensures { OnOk result (out.new.items ≡ out.old.items
        ++ fields_text (codes "held delimiter" ∷ byte.now ∷ segment.now ∷ name.now ∷ [] ∷ [] ∷ [] ∷ [])) }
{
    let none: &[u8] = b"";
    let outcome: &[u8] = b"held delimiter";
    append_fields(out, &[outcome, byte, segment, name, none, none, none])
}

fn append_held(out: &mut Vec<u8>, name: &[u8], hindrance: Option<Hindrance>) -> Result<(), NoMemory>
    ensures { OnOk result (out.new.items ≡ out.old.items ++ fields_text (cells.held_end name.now hindrance)) }
{
    match hindrance {
        None => append_hindrance(out, b"", b"", name),
        Some(hindrance) => {
            let mut segment = Buffer::new();
            append_hindrance(
                out,
                &[hindrance.byte],
                segment.format(u128::from(hindrance.before) + 1).as_bytes(),
                name,
            )
        }
    }
}

/// Writes that a set is delivered to a receiver, and under which numbers.
fn append_delivered(out: &mut Vec<u8>, name: &[u8], mailed: Mailed) -> Result<(), NoMemory>
    ensures { OnOk result (out.new.items ≡ out.old.items ++ fields_text (cells.delivered_end name.now mailed)) }
{
    let none: &[u8] = b"";
    let outcome: &[u8] = b"delivered";
    let interchange = PaddedNumber::new(mailed.interchange, 9);
    let mut group = Buffer::new();
    let set = PaddedNumber::of_set(mailed.set);
    append_fields(
        out,
        &[
            outcome,
            none,
            none,
            name,
            interchange.bytes(),
            group.format(mailed.group).as_bytes(),
            set.bytes(),
        ],
    )
}

/// Writes that a set is held for a delimiter of the receiver at a place.
fn append_held_to(
    out: &mut Vec<u8>,
    by: &Tracking<'_, '_>,
    placed: &PlacedSet<'_, '_, '_>,
    to: usize,
) -> Result<(), NoMemory>
    ensures { OnOk result (out.new.items ≡ out.old.items
        ++ fields_text (rows.held_cells by.now.setup placed.now to (slice_get by.now.setup.partners to))) }
{
    match by.setup.partner_at(to) {
        None => append_plain(out, b""),
        Some(partner) => {
            let hindrance = hindrance_to(&partner.delims, placed);
            append_held(out, partner.name.as_slice(), hindrance)
        }
    }
}

/// Writes that a set is delivered to the receiver at a place, and takes its numbers.
fn append_delivered_to<'a>(
    out: &mut Vec<u8>,
    cursors: &mut [Cursor<'a>],
    by: &Tracking<'_, '_>,
    placed: &PlacedSet<'_, '_, 'a>,
    to: usize,
) -> Result<(), NoMemory>
    requires { to < length cursors.old }
    ensures count { OnOk result (length cursors.new ≡ length cursors.old) }
    ensures row { OnOk result ((before : List PlacedValue) (targets : List ℕ) → outcome_at by.now.setup placed.now to ≡ DeliveredTo to
        → list_any (λ s. s == to) targets ≡ false → AreAmid by.now before placed.now targets cursors.old
        → (out.new.items
        ≡ out.old.items ++ fields_text (rows.delivered_cells by.now before placed.now to (slice_get by.now.setup.partners to)))
        × AreAmid by.now before placed.now (targets ++ to ∷ []) cursors.new) }
{
    match by.setup.partner_at(to) {
        None => append_plain(out, b""),
        Some(partner) => {
            let mailed = cursors[to].next(key_of(placed))?;
            append_delivered(out, partner.name.as_slice(), mailed)
        }
    }
}

/// Writes what became of a set for the receiver at a place.
fn append_outcome<'a>(
    out: &mut Vec<u8>,
    cursors: &mut [Cursor<'a>],
    by: &Tracking<'_, '_>,
    placed: &PlacedSet<'_, '_, 'a>,
    to: usize,
) -> Result<(), NoMemory>
    requires { to < length cursors.old }
    ensures count { OnOk result (length cursors.new ≡ length cursors.old) }
    ensures row { OnOk result ((before : List PlacedValue) (targets : List ℕ) → list_any (λ s. s == to) targets ≡ false
        → AreAmid by.now before placed.now targets cursors.old
        → (out.new.items ≡ out.old.items
        ++ fields_text (rows.outcome_cells by.now before placed.now (outcome_at by.now.setup placed.now to)))
        × AreAmid by.now before placed.now (targets ++ to ∷ []) cursors.new) }
{
    match outcome_at(by.setup, placed, to) {
        Outcome::DeliveredTo(_) => append_delivered_to(out, cursors, by, placed, to),
        Outcome::HeldForDelimiter(_) => append_held_to(out, by, placed, to),
        Outcome::HeldForRoute => append_plain(out, b"held route"),
    }
}

/// Writes the row of a set for the receiver at a place, after these first fields.
pub(crate) fn append_row<'a>(
    out: &mut Vec<u8>,
    cursors: &mut [Cursor<'a>],
    by: &Tracking<'_, '_>,
    line: &[u8],
    placed: &PlacedSet<'_, '_, 'a>,
    to: usize,
) -> Result<(), NoMemory>
    requires { to < length cursors.old }
    ensures count { OnOk result (length cursors.new ≡ length cursors.old) }
    ensures row { OnOk result ((before : List PlacedValue) (targets : List ℕ) → list_any (λ s. s == to) targets ≡ false
        → AreAmid by.now before placed.now targets cursors.old
        → (out.new.items ≡ out.old.items
        ++ row_text line.now (rows.outcome_cells by.now before placed.now (outcome_at by.now.setup placed.now to)))
        × AreAmid by.now before placed.now (targets ++ to ∷ []) cursors.new) }
{
    out.extend_from_slice(line)?;
    append_outcome(out, cursors, by, placed, to)?;
    append_end(out)
}
