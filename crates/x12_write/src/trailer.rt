ghost use Rattle.std.specs.Prelude.{◌≡◌, ◌≤◌, ◌++◌, [], ◌∷◌, decimal, length, OnOk};
ghost use Rattle.x12_write.specs.Extends.{Extends};
ghost use Rattle.x12_write.specs.Number.{padded_number};
ghost use Rattle.x12_write.specs.Segment.{end_text};
ghost use Rattle.x12_write.specs.Trailer.{trailer_text};

use crate::tail::SegmentTail;
use hub_kinds::NoMemory;
use x12_bytes::Delims;

/// Writes IEA after what is there: of that many groups, in the interchange of this number
/// (X12.5, interchange control trailer).
pub fn append_trailer(
    out: &mut Vec<u8>,
    delims: &Delims,
    groups: u64,
    number: u32,
) -> Result<(), NoMemory>
    ensures text { OnOk result
        (out.new.items ≡ out.old.items ++ trailer_text delims.now groups number) }
    ensures kept { Extends out.old.items out.new.items }
{
    let mut tail = counted(delims, groups, number, 9);
    tail.put(b'A');
    tail.put(b'E');
    tail.put(b'I');
    out.extend_from_slice(tail.bytes())?;
    Ok(())
}

/// The end of a trailer after its id: how many are in what it ends, and the number of that, in at least that many digits.
pub(crate) fn counted(delims: &Delims, count: u64, number: u32, least: usize) -> SegmentTail
    requires from { 1 ≤ least }
    requires to { least ≤ 10 }
    ensures text { result ≡ end_text delims.now (decimal count ∷ padded_number least number ∷ []) }
    ensures room { length result ≤ 43 }
{
    let mut tail = SegmentTail::new();
    tail.put(delims.terminator);
    tail.put_number(u64::from(number), least);
    tail.put(delims.element);
    tail.put_number(count, 1);
    tail.put(delims.element);
    tail
}
