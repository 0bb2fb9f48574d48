ghost use Rattle.std.specs.Prelude.{◌≡◌, is_none};
ghost use Rattle.partner_setup.specs.SetupFaults as faults;

use crate::ids::is_name_byte;
use crate::rows::PartnerRow;
use x12_bytes::Delims;

/// Whether `byte` may delimit elements, components or repetitions: 0x1C to 0x1F, or 0x21 to 0x7E except letters, digits, `-`, `.` and `_`.
pub fn may_delimit(byte: u8) -> bool
    ensures { result ≡ faults.may_delimit byte }
{
    (28 <= byte && byte <= 31) || (33 <= byte && byte <= 126 && !is_name_byte(byte))
}

/// Whether `byte` may end a segment: a byte that may delimit, CR or LF.
pub fn may_end(byte: u8) -> bool
    ensures { result ≡ faults.may_end byte }
{
    may_delimit(byte) || byte == b'\r' || byte == b'\n'
}

/// The byte of `text`; none if `text` isn't one byte.
pub fn byte_of(text: &[u8]) -> Option<u8>
    ensures { result ≡ faults.byte_of text.now }
{
    match text {
        [byte] => Some(*byte),
        _ => None,
    }
}

fn are_apart(a: u8, b: u8, c: u8, d: u8) -> bool
    ensures { result ≡ faults.are_apart a b c d }
{
    a != b && a != c && a != d && b != c && b != d && c != d
}

fn are_delimiters(element: u8, component: u8, repetition: u8, terminator: u8) -> bool
    ensures { result ≡ faults.are_delimiters element component repetition terminator }
{
    may_delimit(element)
        && may_delimit(component)
        && may_delimit(repetition)
        && may_end(terminator)
        && are_apart(element, component, repetition, terminator)
}

/// The delimiters of a partner's row, where they are what they must be.
pub(crate) fn delims_of(partner: &PartnerRow) -> Option<Delims>
    ensures { result ≡ faults.delims_of partner.now }
{
    let element = byte_of(partner.element.as_slice())?;
    let component = byte_of(partner.component.as_slice())?;
    let repetition = byte_of(partner.repetition.as_slice())?;
    let terminator = byte_of(partner.terminator.as_slice())?;
    if !are_delimiters(element, component, repetition, terminator) {
        return None;
    }
    Some(Delims {
        element,
        component,
        repetition: Some(repetition),
        terminator,
    })
}

fn lacks_delimiters(partner: &PartnerRow) -> bool
    ensures { result ≡ is_none (faults.delims_of partner.now) }
{
    delims_of(partner).is_none()
}

/// The first partner whose four delimiters aren't single bytes that are allowed and differ.
pub(crate) fn bad_delimiters(partners: &[PartnerRow]) -> Option<usize>
    ensures { result ≡ faults.bad_delimiters partners.now }
{
    for i in 0..partners.len() {
        if lacks_delimiters(&partners[i]) {
            return Some(i);
        }
    }
    None
}
