ghost use Rattle.std.specs.Prelude.{◌≡◌, ◌++◌, ◌∷◌, [], OnOk, codes, decimal};
ghost use Rattle.x12_bytes.specs.Header.{field_of};
ghost use Rattle.hub_kinds.specs.Words.{acknowledgment_code};
ghost use Rattle.x12_write.specs.Segment.{read};
ghost use Rattle.night_report.specs.Lines as lines;

use crate::spaced::{append_count, append_line, append_word, append_words};
use crate::totals::Totals;
use hub_kinds::{
    GroupVerdict, InterchangeFault, MOST_CONTROL_DIGITS, NoMemory, acknowledgment_code, code_text,
    read_number,
};
use itoa::Buffer;
use x12_bytes::Header;

/// ISA13 where it is nine digits, else `?`.
pub(crate) fn control_shown<'a>(header: &Header<'a>) -> &'a [u8]
    ensures { result.now ≡ lines.control_shown header.now }
{
    let control = header.field(13);
    if control.len() == 9 && read_number(control, MOST_CONTROL_DIGITS).is_some() {
        control
    } else {
        b"?"
    }
}

/// Writes the last words of an interchange's line.
fn append_end_words(out: &mut Vec<u8>, fault: Option<InterchangeFault>) -> Result<(), NoMemory>
    ensures { OnOk result (out.new.items ≡ out.old.items ++ lines.spaced (lines.end_words fault)) }
{
    match fault {
        None => append_word(out, b"accepted"),
        Some(fault) => append_words(out, &[b"refused".as_slice(), code_text(fault).as_bytes()]),
    }
}

/// Writes the words after the first of an interchange's line, up to the last ones.
fn append_interchange_words<'x>(
    out: &mut Vec<u8>,
    n: u64,
    start: u128,
    name: &'x [u8],
    control: &'x [u8],
) -> Result<(), NoMemory>
    ensures { OnOk result (out.new.items ≡ out.old.items ++ lines.spaced
        (decimal n ∷ codes "at" ∷ decimal start ∷ codes "from" ∷ name.now ∷ codes "control" ∷ control.now ∷ [])) }
{
    let mut number = Buffer::new();
    let mut offset = Buffer::new();
    append_words(
        out,
        &[
            number.format(n).as_bytes(),
            b"at".as_slice(),
            offset.format(start).as_bytes(),
            b"from".as_slice(),
            name,
            b"control".as_slice(),
            control,
        ],
    )
}

/// Writes the line of interchange `n`, counted from 1, at an offset.
pub(crate) fn append_interchange_line<'x>(
    out: &mut Vec<u8>,
    n: u64,
    start: u128,
    name: &'x [u8],
    control: &'x [u8],
    fault: Option<InterchangeFault>,
) -> Result<(), NoMemory>
    ensures { OnOk result (out.new.items ≡ out.old.items
        ++ lines.interchange_line n start name.now control.now fault) }
{
    out.extend_from_slice(b"interchange")?;
    append_interchange_words(out, n, start, name, control)?;
    append_end_words(out, fault)?;
    out.push(b'\n')?;
    Ok(())
}

/// Writes the line of a TA1 with this code and this note.
fn append_sent_words<'x>(out: &mut Vec<u8>, code: &'x [u8], note: &'x [u8]) -> Result<(), NoMemory>
    ensures { OnOk result (out.new.items ≡ out.old.items ++ lines.sent_line code.now note.now) }
{
    append_line(out, b"ta1", &[b"sent".as_slice(), code, note])
}

/// Writes the line of the TA1 that an interchange is answered with.
pub(crate) fn append_sent_line(out: &mut Vec<u8>, note: &str) -> Result<(), NoMemory>
    ensures { OnOk result (out.new.items ≡ out.old.items ++ lines.sent_line (acknowledgment_code note.now) note.now) }
{
    append_sent_words(out, acknowledgment_code(note).as_bytes(), note.as_bytes())
}

/// Writes how many TA1 an interchange has, where it has any.
pub(crate) fn append_ta1_line(out: &mut Vec<u8>, ta1s: u32) -> Result<(), NoMemory>
    ensures { OnOk result (out.new.items ≡ out.old.items ++ lines.ta1_line ta1s) }
{
    if ta1s == 0 {
        return Ok(());
    }
    let mut count = Buffer::new();
    append_line(out, b"ta1", &[count.format(ta1s).as_bytes()])
}

/// Writes the line of a group of acknowledgments.
pub(crate) fn append_fa_line(out: &mut Vec<u8>, control: &[u8], sets: usize) -> Result<(), NoMemory>
    ensures { OnOk result (out.new.items ≡ out.old.items ++ lines.fa_line control.now sets) }
{
    let mut count = Buffer::new();
    append_line(
        out,
        b"group",
        &[
            b"FA".as_slice(),
            control,
            b"listed".as_slice(),
            b"sets".as_slice(),
            count.format(sets).as_bytes(),
        ],
    )
}

/// Writes the line of a group that is answered, of words and numbers.
fn append_verdict_line<'x>(
    out: &mut Vec<u8>,
    id: &'x [u8],
    control: &'x [u8],
    verdict: &'x [u8],
    sets: usize,
    accepted: u64,
) -> Result<(), NoMemory>
    ensures { OnOk result (out.new.items ≡ out.old.items
        ++ lines.verdict_line id.now control.now verdict.now sets accepted) }
{
    let mut count = Buffer::new();
    let mut good = Buffer::new();
    append_line(
        out,
        b"group",
        &[
            id,
            control,
            verdict,
            b"sets".as_slice(),
            count.format(sets).as_bytes(),
            b"accepted".as_slice(),
            good.format(accepted).as_bytes(),
        ],
    )
}

/// Writes the line of a group that is answered.
pub(crate) fn append_answered_line<'x>(
    out: &mut Vec<u8>,
    id: &'x [u8],
    control: &'x [u8],
    verdict: GroupVerdict,
    sets: usize,
    accepted: u64,
) -> Result<(), NoMemory>
    ensures { OnOk result (out.new.items ≡ out.old.items
        ++ lines.answered_line id.now control.now verdict sets accepted) }
{
    append_verdict_line(
        out,
        id,
        control,
        code_text(verdict).as_bytes(),
        sets,
        accepted,
    )
}

/// Writes the line of a set that is held.
pub(crate) fn append_held_line(
    out: &mut Vec<u8>,
    ordinal: u128,
    reason: &[&[u8]],
) -> Result<(), NoMemory>
    ensures { OnOk result (out.new.items ≡ out.old.items ++ lines.held_line ordinal (read reason.now)) }
{
    out.extend_from_slice(b"held")?;
    append_count(out, b"set", ordinal)?;
    append_words(out, reason)?;
    out.push(b'\n')?;
    Ok(())
}

/// Writes what is counted of interchanges and groups.
fn append_first_totals(out: &mut Vec<u8>, totals: &Totals) -> Result<(), NoMemory>
    ensures { OnOk result (out.new.items ≡ out.old.items ++ lines.spaced
        (codes "interchanges" ∷ decimal totals.now.interchanges ∷ codes "refused" ∷ decimal totals.now.refused
        ∷ codes "groups" ∷ decimal totals.now.groups ∷ [])) }
{
    append_count(out, b"interchanges", totals.interchanges)?;
    append_count(out, b"refused", totals.refused)?;
    append_count(out, b"groups", totals.groups)
}

/// Writes what is counted of sets.
fn append_set_totals(out: &mut Vec<u8>, totals: &Totals) -> Result<(), NoMemory>
    ensures { OnOk result (out.new.items ≡ out.old.items ++ lines.spaced
        (codes "sets" ∷ decimal totals.now.sets ∷ codes "accepted" ∷ decimal totals.now.accepted
        ∷ codes "held" ∷ decimal totals.now.held ∷ [])) }
{
    append_count(out, b"sets", totals.sets)?;
    append_count(out, b"accepted", totals.accepted)?;
    append_count(out, b"held", totals.held)
}

/// Writes the last line.
pub(crate) fn append_total_line(
    out: &mut Vec<u8>,
    totals: &Totals,
    outside: u64,
) -> Result<(), NoMemory>
    ensures { OnOk result (out.new.items ≡ out.old.items ++ lines.total_line totals.now outside) }
{
    out.extend_from_slice(b"total")?;
    append_first_totals(out, totals)?;
    append_set_totals(out, totals)?;
    append_count(out, b"outside", u128::from(outside))?;
    out.push(b'\n')?;
    Ok(())
}
