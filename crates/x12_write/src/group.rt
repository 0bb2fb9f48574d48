ghost use Rattle.std.specs.Prelude.{◌≡◌, ◌++◌, [], ◌∷◌, codes, length, take, OnOk};
ghost use Rattle.moment.specs.Moment.{date_of, time_of};
ghost use Rattle.x12_write.specs.Extends.{Extends};
ghost use Rattle.x12_write.specs.Group.{group_header_text, group_text, group_trailer_text, texts_in_row};
ghost use Rattle.x12_write.specs.GroupParts.{names_of, stamp_of};
ghost use Rattle.x12_write.specs.Segment.{elements_text};

use crate::segment::append_end;
use crate::trailer::counted;
use hub_kinds::{Lent, NoMemory, Text};
use itoa::Buffer;
use moment::At;
use x12_bytes::Delims;

/// What a functional group's header says, the moment left aside (X12.6, GS).
#[derive(Debug, Drop)]
pub struct GroupHeader<'a> {
    /// The functional identifier code (GS01).
    pub functional_id: Lent<'a>,
    /// The sender's application code (GS02).
    pub sender: Lent<'a>,
    /// The receiver's application code (GS03).
    pub receiver: Lent<'a>,
    /// The group's control number (GS06, and GE02 of its trailer), 1 to 999,999,999.
    pub control: u32,
    /// The version, release and industry identifier code (GS08).
    pub version: Lent<'a>,
}

/// Writes a functional group of these transaction sets after what is there.
pub fn append_group(
    out: &mut Vec<u8>,
    delims: &Delims,
    at: &At,
    header: &GroupHeader,
    sets: &[Text],
) -> Result<(), NoMemory>
    ensures text { OnOk result
        (out.new.items ≡ out.old.items ++ group_text delims.now at.now header.now sets.now) }
    ensures kept { Extends out.old.items out.new.items }
{
    append_group_header(out, delims, at, header)?;
    append_texts(out, sets)?;
    append_group_trailer(out, delims, sets.len() as u64, header.control)
}

/// Writes GS after what is there.
pub fn append_group_header(
    out: &mut Vec<u8>,
    delims: &Delims,
    at: &At,
    header: &GroupHeader,
) -> Result<(), NoMemory>
    ensures text { OnOk result
        (out.new.items ≡ out.old.items ++ group_header_text delims.now at.now header.now) }
    ensures kept { Extends out.old.items out.new.items }
{
    append_names(out, delims.element, header)?;
    append_stamp(out, delims.element, at, header.control)?;
    append_end(out, delims, &[header.version.bytes()])
}

/// Writes the id, and GS01 to GS03.
fn append_names(out: &mut Vec<u8>, separator: u8, header: &GroupHeader) -> Result<(), NoMemory>
    ensures text { OnOk result
        (out.new.items ≡ out.old.items ++ (codes "GS" ++ elements_text separator (names_of header.now))) }
    ensures kept { Extends out.old.items out.new.items }
{
    out.extend_from_slice(&[b'G', b'S', separator])?;
    out.extend_from_slice(header.functional_id.bytes())?;
    out.push(separator)?;
    out.extend_from_slice(header.sender.bytes())?;
    out.push(separator)?;
    out.extend_from_slice(header.receiver.bytes())?;
    Ok(())
}

/// Writes GS04 to GS07.
fn append_stamp(out: &mut Vec<u8>, separator: u8, at: &At, control: u32) -> Result<(), NoMemory>
    ensures text { OnOk result (out.new.items ≡ out.old.items ++ elements_text separator (stamp_of at.now control)) }
    ensures kept { Extends out.old.items out.new.items }
{
    let mut digits = Buffer::new();
    out.extend_from_slice(&moment_of(separator, at.digits()))?;
    out.extend_from_slice(digits.format(control).as_bytes())?;
    out.extend_from_slice(&[separator, b'X'])?;
    Ok(())
}

/// GS04 and GS05, and the separator after them.
fn moment_of(separator: u8, at: &[u8]) -> [u8; 15]
    requires { length at.now ≡ 12 }
    ensures { result ≡ elements_text separator (date_of at.now ∷ time_of at.now ∷ []) ++ separator ∷ [] }
{
    [
        separator, at[0], at[1], at[2], at[3], at[4], at[5], at[6], at[7], separator, at[8], at[9],
        at[10], at[11], separator,
    ]
}

/// Writes texts after what is there, one after the other.
fn append_texts(out: &mut Vec<u8>, texts: &[Text]) -> Result<(), NoMemory>
    ensures text { OnOk result (out.new.items ≡ out.old.items ++ texts_in_row texts.now) }
    ensures kept { Extends out.old.items out.new.items }
{
    for text in texts {
        out.extend_from_slice(text.as_slice())?;
    }
    Ok(())
}

/// Writes GE after what is there: of that many transaction sets, in the group of this number.
pub fn append_group_trailer(
    out: &mut Vec<u8>,
    delims: &Delims,
    sets: u64,
    control: u32,
) -> Result<(), NoMemory>
    ensures text { OnOk result
        (out.new.items ≡ out.old.items ++ group_trailer_text delims.now sets control) }
    ensures kept { Extends out.old.items out.new.items }
{
    let mut tail = counted(delims, sets, control, 1);
    tail.put(b'E');
    tail.put(b'G');
    out.extend_from_slice(tail.bytes())?;
    Ok(())
}
