ghost use Rattle.std.specs.Prelude.{◌≡◌, not};
ghost use Rattle.std.specs.List.{list_all};
ghost use Rattle.partner_setup.specs.SetupFaults as faults;

use crate::rows::{PartnerRow, SetupRows};
use crate::setup_fault::IdOwner;
use hub_kinds::is_alphanumeric;

/// Letters, digits, `-`, `.` and `_`.
pub(crate) fn is_name_byte(byte: u8) -> bool
    ensures { result ≡ faults.is_name_byte byte }
{
    byte.is_ascii_alphanumeric() || byte == b'-' || byte == b'.' || byte == b'_'
}

fn is_inner(byte: u8) -> bool
    ensures { result ≡ faults.is_inner byte }
{
    is_name_byte(byte) || byte == b' '
}

fn are_inner(text: &[u8]) -> bool
    ensures { result ≡ list_all faults.is_inner text.now }
{
    text.iter().all(|byte| is_inner(*byte))
}

/// Whether `text` is an id or a code of `least` to `most` bytes: letters, digits, `-`, `.`, `_` and, inside, spaces.
pub fn is_id(text: &[u8], least: usize, most: usize) -> bool
    ensures { result ≡ faults.is_id least most text.now }
{
    match (text.first(), text.last()) {
        (Some(first), Some(last)) => {
            least <= text.len()
                && text.len() <= most
                && are_inner(text)
                && is_name_byte(*first)
                && is_name_byte(*last)
        }
        _ => false,
    }
}

fn are_ids(qualifier: &[u8], id: &[u8], code: &[u8]) -> bool
    ensures { result ≡ faults.are_ids qualifier.now id.now code.now }
{
    is_alphanumeric(qualifier, 2, 2) && is_id(id, 1, 15) && is_id(code, 2, 15)
}

fn has_ids(partner: &PartnerRow) -> bool
    ensures { result ≡ faults.has_ids partner.now }
{
    is_alphanumeric(partner.name.as_slice(), 1, 20)
        && are_ids(
            partner.qualifier.as_slice(),
            partner.id.as_slice(),
            partner.code.as_slice(),
        )
}

fn lacks_ids(partners: &[PartnerRow]) -> Option<usize>
    ensures { result ≡ faults.first_row (λ p. not (faults.has_ids p)) partners.now }
{
    for i in 0..partners.len() {
        if !has_ids(&partners[i]) {
            return Some(i);
        }
    }
    None
}

/// Whose qualifier, id or code, or whose name as a partner, hasn't its form.
pub(crate) fn bad_id(rows: &SetupRows) -> Option<IdOwner>
    ensures { result ≡ faults.bad_id rows.now }
{
    let hub = &rows.hub;
    if !are_ids(
        hub.qualifier.as_slice(),
        hub.id.as_slice(),
        hub.code.as_slice(),
    ) {
        return Some(IdOwner::Hub);
    }
    let partner = lacks_ids(rows.partners.as_slice())?;
    Some(IdOwner::Partner(partner))
}
