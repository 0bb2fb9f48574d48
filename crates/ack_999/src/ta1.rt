ghost use Rattle.std.specs.Prelude.{◌≡◌, ◌++◌, [], ◌∷◌, codes, IfOk, OnOk};
ghost use Rattle.x12_write.specs.Extends.{Extends};
ghost use Rattle.x12_write.specs.Segment.{segment_text};
ghost use Rattle.ack_999.specs.Ta1.{ta1_text};

use hub_kinds::{NoMemory, acknowledgment_code};
use std::alloc::Global;
use x12_bytes::{Delims, Header};
use x12_write::append_segment;

/// The interchange acknowledgment (X12.5, TA1) of the interchange with this header: A where the note is `000`, else R.
pub fn write_ta1(
    alloc: Global,
    header: &Header,
    note: &str,
    delims: &Delims,
) -> Result<Vec<u8>, NoMemory>
    ensures { IfOk result (λ v. v.items ≡ ta1_text delims.now header.now note.now) }
{
    let mut out = Vec::new(alloc);
    append_ta1(&mut out, delims, header, note)?;
    Ok(out)
}

/// Writes the interchange acknowledgment after what is there.
pub fn append_ta1(
    out: &mut Vec<u8>,
    delims: &Delims,
    header: &Header,
    note: &str,
) -> Result<(), NoMemory>
    ensures text { OnOk result (out.new.items ≡ out.old.items ++ ta1_text delims.now header.now note.now) }
    ensures kept { Extends out.old.items out.new.items }
{
    append_five(
        out,
        delims,
        header.field(13),
        header.field(9),
        header.field(10),
        acknowledgment_code(note).as_bytes(),
        note.as_bytes(),
    )
}

/// Writes the segment with these five elements after what is there.
fn append_five<'a>(
    out: &mut Vec<u8>,
    delims: &Delims,
    first: &'a [u8],
    second: &'a [u8],
    third: &'a [u8],
    fourth: &'a [u8],
    fifth: &'a [u8],
) -> Result<(), NoMemory>
    ensures text { OnOk result
        (out.new.items
        ≡ out.old.items
        ++ segment_text delims.now (codes "TA1") (first.now ∷ second.now ∷ third.now ∷ fourth.now ∷ fifth.now ∷ [])) }
    ensures kept { Extends out.old.items out.new.items }
{
    append_segment(out, delims, b"TA1", &[first, second, third, fourth, fifth])
}
