ghost use Rattle.std.specs.Prelude.{◌≡◌, ◌++◌, length, OnOk};
ghost use Rattle.x12_write.specs.Extends.{Extends};
ghost use Rattle.x12_write.specs.Header.{header_text};
ghost use Rattle.x12_write.specs.Number.{padded_number};
ghost use Rattle.x12_write.specs.Outbound.{back_text};
ghost use Rattle.x12_write.specs.Sendable.{BeginsWithHeader};

use crate::envelope::Envelope;
use crate::front::append_front;
use crate::number::PaddedNumber;
use hub_kinds::NoMemory;
use moment::At;

/// Writes the header of interchange `number` after what is there (X12.5, ISA): a header that is read again, where
/// the envelope is fit to be sent and the number has at most nine digits.
pub fn append_header(
    out: &mut Vec<u8>,
    envelope: &Envelope,
    at: &At,
    number: u32,
) -> Result<(), NoMemory>
    ensures text { OnOk result
        (out.new.items ≡ out.old.items ++ header_text envelope.now at.now number) }
    ensures header { OnOk result
        (BeginsWithHeader envelope.now at.now number out.new.items (length out.old.items)) }
    ensures kept { Extends out.old.items out.new.items }
{
    append_front(out, envelope, at)?;
    append_rest(out, number, &back_of(envelope))
}

/// Writes ISA13, and what is after it.
pub(crate) fn append_rest(out: &mut Vec<u8>, number: u32, back: &[u8]) -> Result<(), NoMemory>
    ensures text { OnOk result (out.new.items ≡ out.old.items ++ (padded_number 9 number ++ back.now)) }
    ensures kept { Extends out.old.items out.new.items }
{
    let number = PaddedNumber::new(number, 9);
    out.extend_from_slice(number.bytes())?;
    out.extend_from_slice(back)?;
    Ok(())
}

/// What is after ISA13.
pub(crate) fn back_of(envelope: &Envelope) -> [u8; 7]
    ensures { result ≡ back_text envelope.now }
{
    let separator = envelope.delims.element;
    [
        separator,
        b'0',
        separator,
        envelope.usage,
        separator,
        envelope.delims.component,
        envelope.delims.terminator,
    ]
}
