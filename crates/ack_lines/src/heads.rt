//! Where something is reported.
ghost use Rattle.std.specs.Prelude.{◌≡◌, ◌++◌, OnOk};
ghost use Rattle.ack_lines.specs.Lines as lines;

use crate::sentences::{IN_GROUP, IN_INTERCHANGE, IN_SET, OF_SENDER, TA1_VERDICT, TA1_WHY};
use crate::shown::{append_if, append_one, append_three, append_two};
use crate::words::{INTERCHANGE_WORDS, NOTE_WORDS, words_of};
use ack_read::{GroupTold, SetTold, Ta1Told};
use hub_kinds::NoMemory;
use itoa::Buffer;

/// Appends to `out` which group it is; `sender` is the number of the sender's interchange, if a TA1 gives it.
fn append_group(
    out: &mut Vec<u8>,
    interchange: u64,
    sender: &[u8],
    functional_id: &[u8],
    control: &[u8],
) -> Result<(), NoMemory>
    ensures { OnOk result (out.new.items ≡ out.old.items ++ lines.group_place interchange sender.now functional_id.now control.now) }
{
    let mut digits = Buffer::new();
    append_one(out, IN_INTERCHANGE, digits.format(interchange).as_bytes())?;
    append_if(out, OF_SENDER, sender)?;
    append_two(out, IN_GROUP, functional_id, control)
}

/// Appends to `out` which group `group` is.
pub(crate) fn append_group_head(
    out: &mut Vec<u8>,
    sender: &[u8],
    group: &GroupTold<'_>,
) -> Result<(), NoMemory>
    ensures { OnOk result (out.new.items ≡ out.old.items ++ lines.group_head sender.now group.now) }
{
    let functional_id = group.functional_id.bytes();
    append_group(
        out,
        group.interchange,
        sender,
        functional_id,
        group.control.bytes(),
    )
}

/// Appends to `out` which set `set` is.
pub(crate) fn append_set_head(
    out: &mut Vec<u8>,
    sender: &[u8],
    set: &SetTold<'_>,
) -> Result<(), NoMemory>
    ensures { OnOk result (out.new.items ≡ out.old.items ++ lines.set_head sender.now set.now) }
{
    let functional_id = set.functional_id.bytes();
    append_group(
        out,
        set.interchange,
        sender,
        functional_id,
        set.group_control.bytes(),
    )?;
    append_two(out, IN_SET, set.identifier.bytes(), set.control.bytes())
}

/// Appends the line of `ta1` to `out`.
pub(crate) fn append_ta1_line(out: &mut Vec<u8>, ta1: &Ta1Told<'_>) -> Result<(), NoMemory>
    ensures { OnOk result (out.new.items ≡ out.old.items ++ lines.ta1_line ta1.now) }
{
    let (code, note) = (ta1.code.bytes(), ta1.note.bytes());
    let verdict = words_of(&INTERCHANGE_WORDS, code).as_bytes();
    let why = words_of(&NOTE_WORDS, note).as_bytes();
    let mut digits = Buffer::new();
    let interchange = digits.format(ta1.interchange).as_bytes();
    append_three(out, TA1_VERDICT, interchange, ta1.control.bytes(), verdict)?;
    append_three(out, TA1_WHY, code, why, note)
}
