//! Partners with a delimiter that texts often hold.
ghost use Rattle.std.specs.Prelude.{◌≡◌, ◌++◌, OnOk, option_and_then, option_map};
ghost use Rattle.setup_errors.specs.DoubtfulPartners as doubtful;
ghost use Rattle.setup_errors.specs.Sentences.{text_of};

use crate::delimiters::{Delimiter, key_of, value_of};
use crate::sentence::{Detail, Sentence, push_told};
use crate::words::OFTEN_HELD;
use hub_kinds::{NoMemory, Text};
use partner_setup::{PartnerRow, byte_of};
use std::alloc::Global;

/// Marks that names, addresses and descriptions often hold.
fn is_common(byte: u8) -> bool
    ensures { result ≡ doubtful.is_common byte }
{
    b"&'(),/#%@$\"+;=?".iter().any(|mark| *mark == byte)
}

fn common_cause(delimiter: Delimiter, byte: Option<u8>) -> Option<Sentence<'static>>
    ensures { option_map text_of result ≡ option_and_then (doubtful.common_cause delimiter) byte }
{
    match byte {
        Some(byte) if is_common(byte) => {
            let key = Detail::Text(key_of(delimiter));
            Some(Sentence::Two(OFTEN_HELD, key, Detail::Byte(byte)))
        }
        _ => None,
    }
}

fn push_delimiter(
    alloc: Global,
    found: &mut Vec<Text>,
    place: Sentence<'_>,
    partner: &PartnerRow,
    delimiter: Delimiter,
) -> Result<(), NoMemory>
    ensures { OnOk result (found.new.items ≡ found.old.items
        ++ doubtful.delimiter_warning (text_of place.entry) partner.now delimiter) }
{
    let byte = byte_of(value_of(delimiter, partner));
    push_told(alloc, found, place, common_cause(delimiter, byte))
}

/// Adds the delimiters of a partner that texts often hold.
pub(crate) fn push_delimiters(
    alloc: Global,
    found: &mut Vec<Text>,
    place: Sentence<'_>,
    partner: &PartnerRow,
) -> Result<(), NoMemory>
    ensures { OnOk result (found.new.items ≡ found.old.items
        ++ doubtful.delimiter_warnings (text_of place.entry) partner.now) }
{
    push_delimiter(alloc, found, place, partner, Delimiter::Element)?;
    push_delimiter(alloc, found, place, partner, Delimiter::Component)?;
    push_delimiter(alloc, found, place, partner, Delimiter::Repetition)?;
    push_delimiter(alloc, found, place, partner, Delimiter::Terminator)
}
