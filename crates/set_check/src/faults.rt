//! Which faults a set's codes 5 and I5 are for.
ghost use Rattle.std.specs.Prelude.{◌≡◌, false, not};
ghost use Rattle.std.specs.List.{list_any};
ghost use Rattle.std.specs.Option.{option_map_or};
ghost use Rattle.hub_kinds.specs.declared.fault.Fault.{Fault};
ghost use Rattle.hub_kinds.specs.Words.{head_of};
ghost use Rattle.set_check.specs.Codes.{is_of_guides, reported, reported_by};

use hub_kinds::{FaultHead, Faults, Lent, SegmentCode, code_text};

/// Whether a fault is reported by a code of the standard.
pub(crate) fn has_base_fault(faults: &Faults) -> bool
    ensures { result ≡ list_any (λ f. option_map_or (λ c. not (is_of_guides c)) (reported f) false) faults.now }
{
    for i in 0..faults.len() {
        if is_of_standard(reported(&faults.head(i))) {
            return true;
        }
    }
    false
}

/// Whether a fault is reported by a code of the implementation guides.
pub(crate) fn has_implementation_fault(faults: &Faults) -> bool
    ensures { result ≡ list_any (λ f. option_map_or is_of_guides (reported f) false) faults.now }
{
    for i in 0..faults.len() {
        if is_of_implementation(reported(&faults.head(i))) {
            return true;
        }
    }
    false
}

fn is_of_standard(code: Option<Lent<'static>>) -> bool
    ensures { result ≡ option_map_or (λ c. not (is_of_guides c)) code.entry false }
{
    match code {
        None => false,
        Some(code) => !is_of_guides(code.bytes()),
    }
}

fn is_of_implementation(code: Option<Lent<'static>>) -> bool
    ensures { result ≡ option_map_or is_of_guides code.entry false }
{
    match code {
        None => false,
        Some(code) => is_of_guides(code.bytes()),
    }
}

/// The code that a fault is reported by: IK403 of an element, else IK304 unless it is 8.
fn reported(head: &FaultHead) -> Option<Lent<'static>>
    ensures { (f : Fault) → head.now ≡ head_of f → result ≡ reported f }
{
    match head.element_code {
        Some(code) => Some(Lent::new(code_text(code).as_bytes())),
        None => reported_of_segment(head.code),
    }
}

fn reported_of_segment(code: SegmentCode) -> Option<Lent<'static>>
    ensures { result ≡ reported_by code None }
{
    let text = code_text(code).as_bytes();
    if text == b"8".as_slice() {
        None
    } else {
        Some(Lent::new(text))
    }
}

/// Whether a code begins with I.
fn is_of_guides(code: &[u8]) -> bool
    ensures { result ≡ is_of_guides code.now }
{
    code.starts_with(b"I")
}
