ghost use Rattle.std.specs.Prelude.{◌≡◌, ◌↔◌, ◌≤◌, true, ℕ, List, IsSome, IfSome, IsTrue, is_some, length};
ghost use Rattle.x12_bytes.specs.Header.{Head, HasFields, IsFieldAt, IsHeader, header_at};
ghost use Rattle.x12_bytes.specs.HeaderTest.{is_head};
ghost use Rattle.x12_bytes.specs.FieldRow.{HasRow, is_free};
ghost use Rattle.std.specs.List.{list_all};
ghost use Rattle.x12_bytes.specs.declared.layout.TheConstants.{HEADER_LEN};

use crate::bytes;
use crate::header::Header;
use crate::layout::{self, COMPONENT, ELEMENT, HEADER_LEN, TERMINATOR};

/// The header that begins at this offset of the text (X12.5, ISA), if one does. Any offset may be
/// asked, also one after the text's end.
pub fn read_header(text: &[u8], at: usize) -> Option<Header<'_>>
    ensures found { IsSome result ↔ Head text.now at }
    ensures test { is_some result ≡ is_head text.now at }
    ensures lent { IfSome result (λ header. header ≡ header_at text.now at) }
{
    if text.len() < HEADER_LEN || text.len() - HEADER_LEN < at {
        return None;
    }
    let bytes = &text[at..at + HEADER_LEN];
    if is_header(bytes) {
        Some(Header::new(bytes))
    } else {
        None
    }
}

/// The test of a header, in definitions that go by cases, says exactly where one begins.
pub fn head_is_tested()
    ensures { (text : List ℕ) (at : ℕ) → IsTrue (is_head text at) ↔ Head text at }
{}

fn is_header(bytes: &[u8]) -> bool
    requires { length bytes.now ≡ HEADER_LEN }
    ensures { IsTrue result ↔ IsHeader bytes.now }
{
    let element = bytes[ELEMENT];
    let component = bytes[COMPONENT];
    let terminator = bytes[TERMINATOR];
    bytes.starts_with(b"ISA")
        && element != component
        && element != terminator
        && component != terminator
        && bytes::may_separate(element)
        && bytes::may_separate(component)
        && bytes::may_terminate(terminator)
        && has_fields(bytes)
}

/// Whether each field is after a separator and holds no delimiter. Written out, so that each place and each width is a constant:
/// a header is tested wherever a letter I is met.
fn has_fields(bytes: &[u8]) -> bool
    requires { length bytes.now ≡ HEADER_LEN }
    ensures { IsTrue result ↔ HasFields bytes.now }
{
    has_eight(bytes, 1) && has_eight(bytes, 9)
}

/// Whether that is so of eight fields from this one on.
#[inline(always)]
fn has_eight(bytes: &[u8], k: usize) -> bool
    requires len { length bytes.now ≡ HEADER_LEN }
    requires from { 1 ≤ k }
    requires to { k ≤ 9 }
    ensures { IsTrue result ↔ HasRow bytes.now k 8 }
{
    has_four(bytes, k) && has_four(bytes, k + 4)
}

/// Whether it is so of four.
#[inline(always)]
fn has_four(bytes: &[u8], k: usize) -> bool
    requires len { length bytes.now ≡ HEADER_LEN }
    requires from { 1 ≤ k }
    requires to { k ≤ 13 }
    ensures { IsTrue result ↔ HasRow bytes.now k 4 }
{
    has_two(bytes, k) && has_two(bytes, k + 2)
}

/// Whether it is so of two.
#[inline(always)]
fn has_two(bytes: &[u8], k: usize) -> bool
    requires len { length bytes.now ≡ HEADER_LEN }
    requires from { 1 ≤ k }
    requires to { k ≤ 15 }
    ensures { IsTrue result ↔ HasRow bytes.now k 2 }
{
    is_field_at(bytes, k) && is_field_at(bytes, k + 1)
}

#[inline(always)]
fn is_field_at(bytes: &[u8], k: usize) -> bool
    requires len { length bytes.now ≡ HEADER_LEN }
    requires from { 1 ≤ k }
    requires to { k ≤ 16 }
    ensures { IsTrue result ↔ IsFieldAt bytes.now k }
{
    let element = bytes[ELEMENT];
    let terminator = bytes[TERMINATOR];
    bytes[layout::separator_place(k)] == element
        && is_free_of(layout::field(bytes, k), element, terminator)
}

/// Whether neither byte is in a field. No byte ends it, so that many are looked at in one step.
#[inline(always)]
fn is_free_of(field: &[u8], element: u8, terminator: u8) -> bool
    ensures { result ≡ list_all (is_free element terminator) field.now }
{
    let mut free = true;
    for byte in field {
        free = free & (*byte != element) & (*byte != terminator);
    }
    free
}

/// The header that is known to begin at this offset of the text (X12.5, ISA): it isn't tested again.
pub fn header_there(text: &[u8], at: usize) -> Header<'_>
    requires { is_head text.now at ≡ true }
    ensures { result ≡ header_at text.now at }
{
    Header::new(&text[at..at + HEADER_LEN])
}
