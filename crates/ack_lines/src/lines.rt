//! The lines of what is reported.
ghost use Rattle.std.specs.Prelude.{◌≡◌, ◌++◌, OnOk};
ghost use Rattle.std.specs.List.{flat_map};
ghost use Rattle.ack_lines.specs.Lines as lines;

use crate::heads::{append_group_head, append_set_head, append_ta1_line};
use crate::notes::append_note_lines;
use crate::reported::{Reported, is_rejected};
use crate::sentences::{FALLEN, GROUP_CODE, GROUP_VERDICT, NOTED, SET_CODE, SET_VERDICT};
use crate::shown::{append_one, append_three, append_two};
use crate::words::{GROUP_VERDICT_WORDS, GROUP_WORDS, SET_VERDICT_WORDS, SET_WORDS, words_of};
use ack_read::{GroupTold, SetTold};
use guide_names::Names;
use hub_kinds::{Lent, NoMemory};
use std::alloc::Global;

/// Whether a set's code says no more than its notes do.
fn repeats_notes(code: &[u8]) -> bool
    ensures { result ≡ lines.repeats_notes code.now }
{
    code == b"5".as_slice() || code == b"I5".as_slice()
}

/// Appends the line of a set's `code` to `out`, with `head` in front; none if the set is `noted` and the code says no more than its notes.
fn append_set_code(
    out: &mut Vec<u8>,
    head: &[u8],
    verdict: &str,
    noted: bool,
    code: &[u8],
) -> Result<(), NoMemory>
    ensures { OnOk result (out.new.items ≡ out.old.items ++ lines.set_code_line head.now verdict.now noted code.now) }
{
    if noted && repeats_notes(code) {
        return Ok(());
    }
    out.extend_from_slice(head)?;
    let words = words_of(&SET_WORDS, code).as_bytes();
    append_three(out, SET_CODE, verdict.as_bytes(), words, code)
}

/// Appends the lines of a set's `codes` to `out`.
fn append_each_code(
    out: &mut Vec<u8>,
    head: &[u8],
    verdict: &str,
    noted: bool,
    codes: &[Lent<'_>],
) -> Result<(), NoMemory>
    ensures { OnOk result (out.new.items ≡ out.old.items ++ flat_map (lines.set_code_line head.now verdict.now noted) codes.now) }
{
    for code in codes {
        append_set_code(out, head, verdict, noted, code.bytes())?;
    }
    Ok(())
}

/// Appends a line for each code of `set` to `out`, or one of its verdict alone.
fn append_all_codes(
    out: &mut Vec<u8>,
    head: &[u8],
    verdict: &str,
    set: &SetTold<'_>,
) -> Result<(), NoMemory>
    ensures { OnOk result (out.new.items ≡ out.old.items ++ lines.all_code_lines head.now verdict.now set.now.code set.now.codes) }
{
    if set.codes.as_slice().is_empty() {
        out.extend_from_slice(head)?;
        return append_two(out, SET_VERDICT, verdict.as_bytes(), set.code.bytes());
    }
    append_each_code(out, head, verdict, false, set.codes.as_slice())
}

/// Appends the lines of a set's codes to `out`, after those of its notes.
fn append_set_codes(
    out: &mut Vec<u8>,
    head: &[u8],
    verdict: &str,
    set: &SetTold<'_>,
) -> Result<(), NoMemory>
    ensures { OnOk result (out.new.items ≡ out.old.items ++ lines.set_code_lines head.now verdict.now set.now set.now.notes) }
{
    if set.notes.as_slice().is_empty() {
        return append_all_codes(out, head, verdict, set);
    }
    append_each_code(out, head, verdict, true, set.codes.as_slice())
}

/// Appends the lines of a set that isn't accepted to `out`, with the words `verdict`.
fn append_set_lines(
    alloc: Global,
    out: &mut Vec<u8>,
    names: &Names,
    sender: &[u8],
    verdict: &str,
    set: &SetTold<'_>,
) -> Result<(), NoMemory>
    ensures { OnOk result (out.new.items ≡ out.old.items ++ lines.faulty_set_lines names.now sender.now verdict.now set.now) }
{
    let mut head = Vec::new(alloc);
    append_set_head(&mut head, sender, set)?;
    let mut noted = Vec::new(alloc);
    append_set_head(&mut noted, sender, set)?;
    append_one(&mut noted, NOTED, verdict.as_bytes())?;
    append_note_lines(out, names, noted.as_slice(), set.notes.as_slice())?;
    append_set_codes(out, head.as_slice(), verdict, set)
}

/// The words of the verdict on a set whose group is rejected.
fn fallen_verdict(code: &[u8]) -> &'static str
    ensures { result.now ≡ lines.fallen_verdict code.now }
{
    if is_rejected(code) {
        return words_of(&SET_VERDICT_WORDS, code);
    }
    FALLEN
}

/// Appends the lines of `set` to `out`; it `falls` if its group is rejected.
fn append_set(
    alloc: Global,
    out: &mut Vec<u8>,
    names: &Names,
    sender: &[u8],
    set: &SetTold<'_>,
    falls: bool,
) -> Result<(), NoMemory>
    ensures { OnOk result (out.new.items ≡ out.old.items ++ lines.set_lines names.now sender.now set.now falls) }
{
    let code = set.code.bytes();
    if falls {
        return append_set_lines(alloc, out, names, sender, fallen_verdict(code), set);
    }
    if is_accepted(code) {
        return Ok(());
    }
    let verdict = words_of(&SET_VERDICT_WORDS, code);
    append_set_lines(alloc, out, names, sender, verdict, set)
}

/// Appends the line of a group's `code` to `out`.
fn append_group_code(
    out: &mut Vec<u8>,
    head: &[u8],
    verdict: &str,
    code: &[u8],
) -> Result<(), NoMemory>
    ensures { OnOk result (out.new.items ≡ out.old.items ++ lines.group_code_line head.now verdict.now code.now) }
{
    out.extend_from_slice(head)?;
    let words = words_of(&GROUP_WORDS, code).as_bytes();
    append_three(out, GROUP_CODE, verdict.as_bytes(), words, code)
}

/// Appends a line for each of a group's `codes` to `out`.
fn append_group_codes(
    out: &mut Vec<u8>,
    head: &[u8],
    verdict: &str,
    codes: &[Lent<'_>],
) -> Result<(), NoMemory>
    ensures { OnOk result (out.new.items ≡ out.old.items ++ flat_map (lines.group_code_line head.now verdict.now) codes.now) }
{
    for code in codes {
        append_group_code(out, head, verdict, code.bytes())?;
    }
    Ok(())
}

/// Appends the lines of a group that isn't accepted to `out`.
fn append_group_lines(
    alloc: Global,
    out: &mut Vec<u8>,
    sender: &[u8],
    group: &GroupTold<'_>,
) -> Result<(), NoMemory>
    ensures { OnOk result (out.new.items ≡ out.old.items ++ lines.faulty_group_lines sender.now group.now group.now.codes) }
{
    let verdict = words_of(&GROUP_VERDICT_WORDS, group.code.bytes());
    let mut head = Vec::new(alloc);
    append_group_head(&mut head, sender, group)?;
    if group.codes.as_slice().is_empty() {
        out.extend_from_slice(head.as_slice())?;
        return append_two(out, GROUP_VERDICT, verdict.as_bytes(), group.code.bytes());
    }
    append_group_codes(out, head.as_slice(), verdict, group.codes.as_slice())
}

/// Whether a verdict is A.
pub(crate) fn is_accepted(code: &[u8]) -> bool
    ensures { result ≡ lines.is_accepted code.now }
{
    code == b"A".as_slice()
}

/// Appends the lines of what is reported of this interchange of the sender to `out`.
pub(crate) fn append_reported(
    alloc: Global,
    out: &mut Vec<u8>,
    names: &Names,
    sender: &[u8],
    one: &Reported<'_>,
) -> Result<(), NoMemory>
    ensures { OnOk result (out.new.items ≡ out.old.items ++ lines.reported_lines names.now sender.now one.now) }
{
    match one {
        Reported::OfInterchange(ta1) => append_ta1_line(out, ta1),
        Reported::OfSet(set, falls) => append_set(alloc, out, names, sender, set, *falls),
        Reported::OfGroup(group) if !is_accepted(group.code.bytes()) => append_group_lines(
            alloc, out, sender, group,
        ),
        Reported::OfGroup(_) => Ok(()),
    }
}
