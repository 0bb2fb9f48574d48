ghost use Rattle.std.specs.Prelude.{◌≡◌, ◌++◌, ◌∷◌, [], IfOk, OnOk, decimal, drop, map, slice_index_or, take};
ghost use Rattle.x12_segs.specs.Words.{element_of};
ghost use Rattle.answered_sets.specs.Answered.{ta1_note};
ghost use Rattle.answered_sets.specs.Judged.{segments_in};
ghost use Rattle.track_table.specs.Cells as cells;
ghost use Rattle.csv_fields.specs.Csv.{cells_text, fields_text};
ghost use Rattle.set_documents.specs.Documents.{document_number};

use crate::limits::MOST_SHOWN;
use crate::notes::GroupNotes;
use answered_sets::{JudgedInterchange, PlacedSet, is_fa, ta1_note};
use csv_fields::{append_field, append_fields};
use env_index::GroupEnvelope;
use hub_kinds::{Code, GroupCode, GroupVerdict, InterchangeFault, NoMemory, SetCode, code_text};
use itoa::Buffer;
use night_report::sender_name;
use partner_setup::Setup;
use set_documents::{Document, document_number};
use std::alloc::Global;
use x12_segs::SegView;

fn fault_cell(fault: Option<InterchangeFault>) -> &'static [u8]
    ensures { result.now ≡ cells.fault_cell fault }
{
    match fault {
        None => b"",
        Some(fault) => code_text(fault).as_bytes(),
    }
}

fn note_cell(interchange: &JudgedInterchange<'_, '_>) -> &'static [u8]
    ensures { result.now ≡ cells.note_cell (ta1_note interchange.now.sender interchange.now.fault interchange.now.interchange) }
{
    match ta1_note(
        interchange.sender(),
        interchange.fault(),
        interchange.interchange(),
    ) {
        None => b"",
        Some(note) => note.as_bytes(),
    }
}

/// Writes the first fields of a row, by these.
fn append_first<'x>(
    out: &mut Vec<u8>,
    n: u64,
    start: usize,
    name: &'x [u8],
    control: &'x [u8],
    fault: &'x [u8],
    note: &'x [u8],
) -> Result<(), NoMemory>
    ensures { OnOk result (out.new.items ≡ out.old.items ++ cells_text
        (decimal n ∷ decimal start ∷ name.now ∷ control.now ∷ fault.now ∷ note.now ∷ [])) }
{
    let mut number = Buffer::new();
    let mut offset = Buffer::new();
    append_field(out, number.format(n).as_bytes())?;
    append_fields(
        out,
        &[offset.format(start).as_bytes(), name, control, fault, note],
    )
}

/// Writes the fields of interchange `n`, counted from 1: the first ones of a row.
pub(crate) fn append_interchange(
    out: &mut Vec<u8>,
    setup: &Setup,
    n: u64,
    interchange: &JudgedInterchange<'_, '_>,
) -> Result<(), NoMemory>
    ensures { OnOk result (out.new.items ≡ out.old.items ++ cells_text (cells.interchange_cells setup.now n interchange.now)) }
{
    let indexed = interchange.interchange();
    append_first(
        out,
        n,
        indexed.start(),
        sender_name(setup, interchange.sender()),
        indexed.header().field(13),
        fault_cell(interchange.fault()),
        note_cell(interchange),
    )
}

/// The texts of codes with spaces between them.
fn spaced_codes<C: Code>(alloc: Global, codes: &[C]) -> Result<Vec<u8>, NoMemory>
    ensures { IfOk result (λ text. text.items ≡ cells.spaced_words (map C.text codes.now)) }
{
    let mut text = Vec::new(alloc);
    for i in 0..codes.len() {
        if i > 0 {
            text.push(b' ')?;
        }
        text.extend_from_slice(code_text(codes[i]).as_bytes())?;
    }
    Ok(text)
}

/// At most this many of the first bytes of a text.
fn front_of(text: &[u8], most: usize) -> &[u8]
    ensures { result.now ≡ take most text.entry.now }
{
    &text[..most.min(text.len())]
}

/// As much of an application code as is shown.
fn shown(text: &[u8]) -> &[u8]
    ensures { result.now ≡ cells.shown text.entry.now }
{
    front_of(text, MOST_SHOWN)
}

/// Writes what is answered to a group with this verdict and these codes.
fn append_standing(
    alloc: Global,
    out: &mut Vec<u8>,
    group: &GroupEnvelope<'_, '_>,
    verdict: GroupVerdict,
    codes: &[GroupCode],
) -> Result<(), NoMemory>
    ensures { OnOk result (out.new.items ≡ out.old.items ++ fields_text (cells.standing_cells group.now verdict codes.now)) }
{
    if is_fa(group) {
        return append_fields(out, &[b"".as_slice(), b"".as_slice()]);
    }
    let codes = spaced_codes(alloc, codes)?;
    append_fields(out, &[code_text(verdict).as_bytes(), codes.as_slice()])
}

/// Writes GS01, GS06, GS02 and GS03.
fn append_header(out: &mut Vec<u8>, header: &SegView<'_>) -> Result<(), NoMemory>
    ensures { OnOk result (out.new.items ≡ out.old.items ++ fields_text (element_of header.now 1 ∷ element_of header.now 6
        ∷ cells.shown (element_of header.now 2) ∷ cells.shown (element_of header.now 3) ∷ [])) }
{
    append_fields(
        out,
        &[
            header.element(1),
            header.element(6),
            shown(header.element(2)),
            shown(header.element(3)),
        ],
    )
}

/// Writes the fields of a group with this verdict and these codes.
pub(crate) fn append_group(
    alloc: Global,
    out: &mut Vec<u8>,
    group: &GroupEnvelope<'_, '_>,
    verdict: GroupVerdict,
    codes: &[GroupCode],
) -> Result<(), NoMemory>
    ensures { OnOk result (out.new.items ≡ out.old.items ++ fields_text (cells.group_cells group.now verdict codes.now)) }
{
    append_header(out, &group.header())?;
    append_standing(alloc, out, group, verdict, codes)
}

/// Writes what is answered to a set.
fn append_answer(
    alloc: Global,
    out: &mut Vec<u8>,
    placed: &PlacedSet<'_, '_, '_>,
    codes: &[SetCode],
    faults: u64,
) -> Result<(), NoMemory>
    ensures { OnOk result (out.new.items ≡ out.old.items
        ++ fields_text (cells.answer_cells placed.now (record { codes = codes.now; faults = faults }))) }
{
    if is_fa(&placed.group()) {
        return append_fields(out, &[b"".as_slice(), b"".as_slice(), b"".as_slice()]);
    }
    let mut count = Buffer::new();
    let codes = spaced_codes(alloc, codes)?;
    append_fields(
        out,
        &[
            code_text(placed.verdict()).as_bytes(),
            codes.as_slice(),
            count.format(faults).as_bytes(),
        ],
    )
}

/// Writes ST01, ST02 and the number of the document.
fn append_names(
    out: &mut Vec<u8>,
    documents: &[Document<'_>],
    placed: &PlacedSet<'_, '_, '_>,
) -> Result<(), NoMemory>
    ensures { OnOk result (out.new.items ≡ out.old.items ++ fields_text (element_of placed.now.set.header 1
        ∷ element_of placed.now.set.header 2
        ∷ document_number documents.now (element_of placed.now.set.header 1) (drop 1 (segments_in placed.now)) ∷ [])) }
{
    let set = placed.set();
    let identifier = set.header.element(1);
    let number = document_number(documents, identifier, placed.behind_header(&set));
    append_fields(out, &[identifier, set.header.element(2), number])
}

/// Writes the fields of a set, with what is kept of the answers to its group.
pub(crate) fn append_set(
    alloc: Global,
    out: &mut Vec<u8>,
    documents: &[Document<'_>],
    placed: &PlacedSet<'_, '_, '_>,
    notes: &GroupNotes,
) -> Result<(), NoMemory>
    ensures { OnOk result (out.new.items ≡ out.old.items ++ fields_text
        (cells.set_cells documents.now placed.now (slice_index_or notes.now.sets placed.now.index cells.no_set_notes))) }
{
    append_names(out, documents, placed)?;
    match notes.sets.as_slice().get(placed.index()) {
        None => append_answer(alloc, out, placed, &[], 0),
        Some(notes) => append_answer(alloc, out, placed, notes.codes.as_slice(), notes.faults),
    }
}
