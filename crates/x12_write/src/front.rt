ghost use Rattle.std.specs.Prelude.{◌≡◌, ◌++◌, [], ◌∷◌, codes, length, OnOk};
ghost use Rattle.moment.specs.Moment.{IsMoment, short_date_of, time_of};
ghost use Rattle.x12_write.specs.Extends.{Extends};
ghost use Rattle.x12_write.specs.Number.{padded_text};
ghost use Rattle.x12_write.specs.Outbound.{front_text, no_information};
ghost use Rattle.x12_write.specs.Segment.{elements_text};

use crate::envelope::Envelope;
use crate::number::append_padded;
use hub_kinds::{Lent, NoMemory};
use moment::At;

/// Writes what is before ISA13. The moment's digits are read as one, so that what `At` keeps of them is known here.
pub(crate) fn append_front(out: &mut Vec<u8>, envelope: &Envelope, at: &At) -> Result<(), NoMemory>
    ensures text { OnOk result (out.new.items ≡ out.old.items ++ front_text envelope.now at.now) }
    ensures moment { IsMoment at.now }
    ensures kept { Extends out.old.items out.new.items }
{
    let separator = envelope.delims.element;
    let moment = moment_of(separator, at.digits(), envelope.repetition);
    out.extend_from_slice(&opening(separator))?;
    append_party(out, separator, &envelope.hub_qualifier, &envelope.hub_id)?;
    append_party(
        out,
        separator,
        &envelope.partner_qualifier,
        &envelope.partner_id,
    )?;
    out.extend_from_slice(&moment)?;
    Ok(())
}

/// The id, and ISA01 to ISA04.
fn opening(separator: u8) -> [u8; 31]
    ensures { result ≡ codes "ISA" ++ elements_text separator no_information }
{
    let mut text = *b"ISA*00*          *00*          ";
    text[3] = separator;
    text[6] = separator;
    text[17] = separator;
    text[20] = separator;
    text
}

/// Writes a party's id qualifier, and its id in its full width.
fn append_party(
    out: &mut Vec<u8>,
    separator: u8,
    qualifier: &Lent,
    id: &Lent,
) -> Result<(), NoMemory>
    ensures text { OnOk result
        (out.new.items
        ≡ out.old.items ++ elements_text separator (qualifier.now ∷ padded_text 15 id.now ∷ [])) }
    ensures kept { Extends out.old.items out.new.items }
{
    out.push(separator)?;
    out.extend_from_slice(qualifier.bytes())?;
    out.push(separator)?;
    append_padded(out, id.bytes(), 15)
}

/// ISA09 to ISA12, and the separator after them.
fn moment_of(separator: u8, at: &[u8], repetition: u8) -> [u8; 21]
    requires { length at.now ≡ 12 }
    ensures { result
        ≡ elements_text separator (short_date_of at.now ∷ time_of at.now ∷ (repetition ∷ []) ∷ codes "00501" ∷ [])
        ++ separator ∷ [] }
{
    [
        separator, at[2], at[3], at[4], at[5], at[6], at[7], separator, at[8], at[9], at[10],
        at[11], separator, repetition, separator, b'0', b'0', b'5', b'0', b'1', separator,
    ]
}
