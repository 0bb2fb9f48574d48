ghost use Rattle.std.specs.Prelude.{◌≡◌, ◌++◌, [], ◌∷◌, IfOk, OnOk};
ghost use Rattle.ack_999.specs.Report.{text_999, head_text, set_text, sets_text, tail_text, Completes};
ghost use Rattle.ack_999.specs.Report.{convention_text, set_response, group_response, set_trailer};
ghost use Rattle.ack_999.specs.Known.{bare_response, set_header};
ghost use Rattle.hub_kinds.specs.Words.{is_word};
ghost use Rattle.ack_999.specs.Group.{IsCountable};
ghost use Rattle.x12_write.specs.Segment.{segments_text};
ghost use Rattle.ack_999.specs.ReadBack.{ReadsBack};
ghost use Rattle.x12_write.specs.Extends.{Extends};

use crate::counts::{accepted_sets, listed_sets, segment_count, shows_sets, totals_of};
use crate::faults::append_faults;
use crate::totals::Totals;
use hub_kinds::{GroupAnswer, NoMemory, SetAnswer, Verdict, code_text, is_alphanumeric};
use itoa::Buffer;
use std::alloc::Global;
use x12_bytes::Delims;
use x12_write::{PaddedNumber, append_coded_segment, append_segment};

/// The implementation acknowledgment of a functional group (999 guide, 005010X231), as transaction
/// set number `n`, written with these delimiters and no byte between segments.
pub fn write_999(
    alloc: Global,
    group: &GroupAnswer,
    sets: &[SetAnswer],
    delims: &Delims,
    n: u32,
) -> Result<Vec<u8>, NoMemory>
    ensures text { IfOk result (λ v. v.items ≡ text_999 delims.now group.now sets.now n) }
    ensures read_back { IfOk result
        (λ v. ReadsBack delims.now group.now sets.now n v.items) }
{
    let mut out = Vec::new(alloc);
    append_999(&mut out, delims, group, sets, n)?;
    Ok(out)
}

/// Writes the implementation acknowledgment of a functional group after what is there.
pub fn append_999(
    out: &mut Vec<u8>,
    delims: &Delims,
    group: &GroupAnswer,
    sets: &[SetAnswer],
    n: u32,
) -> Result<(), NoMemory>
    ensures text { OnOk result (out.new.items ≡ out.old.items ++ text_999 delims.now group.now sets.now n) }
    ensures kept { Extends out.old.items out.new.items }
{
    append_head(out, delims, group, n)?;
    append_sets(out, delims, group, sets)?;
    append_tail(out, delims, group, &totals_of(sets), n)
}

/// Writes an acknowledgment's ST and AK1 after what is there. Where memory is refused, here and in
/// the other calls that append, a part of the text may be there, after what was there before.
pub fn append_head(
    out: &mut Vec<u8>,
    delims: &Delims,
    group: &GroupAnswer,
    n: u32,
) -> Result<(), NoMemory>
    ensures text { OnOk result (out.new.items ≡ out.old.items ++ head_text delims.now group.now n) }
    ensures kept { Extends out.old.items out.new.items }
{
    append_set_header(out, delims, n)?;
    append_segment(
        out,
        delims,
        b"AK1",
        &[
            group.functional_id.bytes(),
            group.control.bytes(),
            group.version.bytes(),
        ],
    )
}

/// Writes ST after what is there, whose elements but its number are always the same.
fn append_set_header(out: &mut Vec<u8>, delims: &Delims, n: u32) -> Result<(), NoMemory>
    ensures text { OnOk result
        (out.new.items ≡ out.old.items ++ segments_text delims.now (set_header n ∷ [])) }
    ensures kept { Extends out.old.items out.new.items }
{
    let separator = delims.element;
    let end = delims.terminator;
    out.extend_from_slice(&[b'S', b'T', separator, b'9', b'9', b'9', separator])?;
    out.extend_from_slice(PaddedNumber::of_set(n).bytes())?;
    out.extend_from_slice(&[
        separator, b'0', b'0', b'5', b'0', b'1', b'0', b'X', b'2', b'3', b'1', end,
    ])?;
    Ok(())
}

/// Writes a set's AK2, what is reported of its faults (IK3 and IK4), and its IK5 after what is there.
pub fn append_set(out: &mut Vec<u8>, delims: &Delims, set: &SetAnswer) -> Result<(), NoMemory>
    ensures text { OnOk result (out.new.items ≡ out.old.items ++ set_text delims.now set.now) }
    ensures kept { Extends out.old.items out.new.items }
{
    append_segment(
        out,
        delims,
        b"AK2",
        &[
            set.identifier.bytes(),
            set.control.bytes(),
            convention(set.convention.bytes()),
        ],
    )?;
    append_faults(out, delims, &set.faults)?;
    append_set_response(out, delims, set)
}

/// Writes IK5 after what is there.
fn append_set_response(out: &mut Vec<u8>, delims: &Delims, set: &SetAnswer) -> Result<(), NoMemory>
    ensures text { OnOk result
        (out.new.items ≡ out.old.items ++ segments_text delims.now (set_response set.now ∷ [])) }
    ensures kept { Extends out.old.items out.new.items }
{
    if set.codes.as_slice().is_empty() {
        return append_verdict(out, delims, set.verdict);
    }
    append_coded_segment(
        out,
        delims,
        b"IK5",
        &[code_text(set.verdict).as_bytes()],
        set.codes.as_slice(),
    )
}

/// Writes an IK5 without codes after what is there.
fn append_verdict(out: &mut Vec<u8>, delims: &Delims, verdict: Verdict) -> Result<(), NoMemory>
    ensures text { OnOk result
        (out.new.items ≡ out.old.items ++ segments_text delims.now (bare_response verdict ∷ [])) }
    ensures kept { Extends out.old.items out.new.items }
{
    out.extend_from_slice(&[b'I', b'K', b'5', delims.element])?;
    out.extend_from_slice(code_text(verdict).as_bytes())?;
    out.push(delims.terminator)?;
    Ok(())
}

/// AK203: ST03, where it can be shown.
fn convention(text: &[u8]) -> &[u8]
    ensures { result.now ≡ convention_text text.now }
{
    if is_convention(text) { text } else { &[] }
}

fn is_convention(text: &[u8]) -> bool
    ensures { result ≡ is_word 1 35 text.now }
{
    is_alphanumeric(text, 1, 35)
}

/// Writes the sets that are shown after what is there.
fn append_sets(
    out: &mut Vec<u8>,
    delims: &Delims,
    group: &GroupAnswer,
    sets: &[SetAnswer],
) -> Result<(), NoMemory>
    ensures text { OnOk result
        (out.new.items ≡ out.old.items ++ sets_text delims.now group.now sets.now) }
    ensures kept { Extends out.old.items out.new.items }
{
    if !shows_sets(group.codes.as_slice()) {
        return Ok(());
    }
    for set in sets {
        append_set(out, delims, set)?;
    }
    Ok(())
}

/// Writes an acknowledgment's AK9 and SE after what is there. `totals` are those of all sets of
/// the group, whether they are shown or not.
pub fn append_tail(
    out: &mut Vec<u8>,
    delims: &Delims,
    group: &GroupAnswer,
    totals: &Totals,
    n: u32,
) -> Result<(), NoMemory>
    requires { IsCountable totals.now }
    ensures text { OnOk result
        (out.new.items ≡ out.old.items ++ tail_text delims.now group.now totals.now n) }
    ensures whole { OnOk result
        (Completes delims.now group.now totals.now n out.old.items out.new.items) }
    ensures kept { Extends out.old.items out.new.items }
{
    append_group_response(out, delims, group, totals)?;
    append_set_trailer(out, delims, segment_count(group, totals), n)
}

/// Writes AK9 after what is there.
fn append_group_response(
    out: &mut Vec<u8>,
    delims: &Delims,
    group: &GroupAnswer,
    totals: &Totals,
) -> Result<(), NoMemory>
    ensures text { OnOk result
        (out.new.items
        ≡ out.old.items ++ segments_text delims.now (group_response group.now totals.now ∷ [])) }
    ensures kept { Extends out.old.items out.new.items }
{
    let mut listed = Buffer::new();
    let mut received = Buffer::new();
    let mut accepted = Buffer::new();
    append_coded_segment(
        out,
        delims,
        b"AK9",
        &[
            code_text(group.verdict).as_bytes(),
            listed.format(listed_sets(group, totals)).as_bytes(),
            received.format(totals.sets()).as_bytes(),
            accepted.format(accepted_sets(group, totals)).as_bytes(),
        ],
        group.codes.as_slice(),
    )
}

/// Writes SE after what is there.
fn append_set_trailer(
    out: &mut Vec<u8>,
    delims: &Delims,
    count: u128,
    n: u32,
) -> Result<(), NoMemory>
    ensures text { OnOk result
        (out.new.items ≡ out.old.items ++ segments_text delims.now (set_trailer count n ∷ [])) }
    ensures kept { Extends out.old.items out.new.items }
{
    let mut digits = Buffer::new();
    let number = PaddedNumber::of_set(n);
    append_segment(
        out,
        delims,
        b"SE",
        &[digits.format(count).as_bytes(), number.bytes()],
    )
}
