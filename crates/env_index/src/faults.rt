ghost use Rattle.std.specs.Prelude.{◌≡◌, ◌≤◌};
ghost use Rattle.std.specs.List.{list_all};
ghost use Rattle.std.specs.Char.{is_ascii_uppercase};
ghost use Rattle.env_index.specs.Faults.{control_number, writes_number, is_group_header, is_set_header, has_set_headers};
ghost use Rattle.env_index.specs.Faults.{fault_of, fault_of_headers};

use crate::header_elements::group_elements;
use crate::interchange::{GroupEnvelope, Interchange};
use hub_kinds::{InterchangeFault, MOST_CONTROL_DIGITS, is_alphanumeric, read_number};
use x12_bytes::Header;
use x12_segs::SegView;

/// The least of the faults 1 to 7 of an interchange, also of one that is in no index; none where it has none. Sets and groups that
/// lack their trailers, and counts of theirs, are no fault of the interchange (X12.5, interchange
/// control numbers and counts; X12.6, functional group and transaction set headers; own numbers).
pub fn judge_interchange(interchange: &Interchange<'_>) -> Option<InterchangeFault>
    ensures { result ≡ fault_of interchange.now }
{
    let Some(trailer) = interchange.trailer() else {
        return Some(InterchangeFault::TrailerMissing);
    };
    let Some(number) = control_number(interchange.header()) else {
        return Some(InterchangeFault::ControlNumberInvalid);
    };
    let (groups, control, _) = trailer.first_elements();
    if !writes_number(control, MOST_CONTROL_DIGITS, number) {
        return Some(InterchangeFault::ControlNumbersDiffer);
    }
    if !writes_number(groups, 5, interchange.group_count() as u64) {
        return Some(InterchangeFault::GroupCountWrong);
    }
    if interchange.is_misplaced() {
        return Some(InterchangeFault::SegmentMisplaced);
    }
    fault_of_headers(interchange)
}

/// ISA13 as a number, where it is nine digits.
fn control_number(header: &Header<'_>) -> Option<u64>
    ensures { result ≡ control_number header.now }
{
    let control = header.field(13);
    if control.len() == 9 {
        read_number(control, MOST_CONTROL_DIGITS)
    } else {
        None
    }
}

fn fault_of_headers(interchange: &Interchange<'_>) -> Option<InterchangeFault>
    ensures { result ≡ fault_of_headers interchange.now }
{
    if !have_group_headers(interchange) {
        Some(InterchangeFault::GroupHeaderInvalid)
    } else if !have_set_headers(interchange) {
        Some(InterchangeFault::SetHeaderInvalid)
    } else {
        None
    }
}

/// Whether a text is 1 to `most` digits that write this number.
fn writes_number(text: &[u8], most: usize, number: u64) -> bool
    requires { most ≤ 19 }
    ensures { result ≡ writes_number most text.now number }
{
    match read_number(text, most) {
        Some(written) => written == number,
        None => false,
    }
}

fn have_group_headers(interchange: &Interchange<'_>) -> bool
    ensures { result ≡ list_all (λ group. is_group_header group.header) interchange.now.content.groups }
{
    for index in 0..interchange.group_count() {
        if !is_group_header(&interchange.group(index).header()) {
            return false;
        }
    }
    true
}

fn have_set_headers(interchange: &Interchange<'_>) -> bool
    ensures { result ≡ list_all has_set_headers interchange.now.content.groups }
{
    for index in 0..interchange.group_count() {
        if !group_has_set_headers(&interchange.group(index)) {
            return false;
        }
    }
    true
}

fn group_has_set_headers(group: &GroupEnvelope<'_, '_>) -> bool
    ensures { result ≡ has_set_headers group.now }
{
    for index in 0..group.set_count() {
        if !is_set_header(&group.set_header(index)) {
            return false;
        }
    }
    true
}

fn is_group_header(header: &SegView<'_>) -> bool
    ensures { result ≡ is_group_header header.now }
{
    let elements = group_elements(header);
    let id = elements.functional_id.bytes();
    id.len() == 2
        && are_uppercase(id)
        && read_number(elements.control.bytes(), MOST_CONTROL_DIGITS).is_some()
        && is_alphanumeric(elements.version.bytes(), 1, 12)
}

fn are_uppercase(text: &[u8]) -> bool
    ensures { result ≡ list_all is_ascii_uppercase text.now }
{
    text.iter().all(|b| b.is_ascii_uppercase())
}

fn is_set_header(header: &SegView<'_>) -> bool
    ensures { result ≡ is_set_header header.now }
{
    let (id, control, _) = header.first_elements();
    is_alphanumeric(id, 3, 3) && is_alphanumeric(control, 1, 9)
}
