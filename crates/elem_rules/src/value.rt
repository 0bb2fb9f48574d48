ghost use Rattle.std.specs.Prelude.{◌≡◌, false};
ghost use Rattle.std.specs.Bool.{OnTrue};
ghost use Rattle.std.specs.List.{list_any};
ghost use Rattle.std.specs.Option.{option_map};
ghost use Rattle.elem_rules.specs.Clean.{is_strange};
ghost use Rattle.elem_rules.specs.Values.{code_fault, calendar_fault, value_fault};

use crate::form::measured;
use guide_tree::{CodeList, ElementType, SimpleRow};
use hub_kinds::ElementCode;
use moment::{is_date, is_time};

fn code_fault(codes: Option<&CodeList>, text: &[u8]) -> Option<ElementCode>
    ensures { result ≡ code_fault (option_map (λ listed. listed.now) codes.entry) text.now }
{
    let listed = codes?;
    if listed.used.contains(text) {
        return None;
    }
    match &listed.unused {
        Some(unused) if unused.contains(text) => Some(ElementCode::CodeNotUsed),
        _ => Some(ElementCode::InvalidCode),
    }
}

fn calendar_fault(data_type: ElementType, text: &[u8]) -> Option<ElementCode>
    ensures { result ≡ calendar_fault data_type text.now }
{
    match data_type {
        ElementType::Date if !is_date(text) => Some(ElementCode::InvalidDate),
        ElementType::Time if !is_time(text) => Some(ElementCode::InvalidTime),
        _ => None,
    }
}

/// The first fault of a value that isn't empty: its form, its length, its code, its date or time (999 guide, IK403).
pub(crate) fn value_fault(row: &SimpleRow, text: &[u8]) -> Option<ElementCode>
    ensures { result ≡ value_fault row.now text.now }
{
    value_fault_by(row, text, false)
}

/// What is wrong with a value; where `narrow` is true, its bytes are known to be characters from space to tilde.
pub(crate) fn value_fault_by(row: &SimpleRow, text: &[u8], narrow: bool) -> Option<ElementCode>
    requires { OnTrue narrow (list_any is_strange text.now ≡ false) }
    ensures { result ≡ value_fault row.now text.now }
{
    let Some(length) = measured(row.data_type, row.wide, text, narrow) else {
        return Some(ElementCode::InvalidCharacter);
    };
    if length < row.min as usize {
        return Some(ElementCode::TooShort);
    }
    if length > row.max as usize {
        return Some(ElementCode::TooLong);
    }
    code_fault(row.codes.as_ref(), text).or(calendar_fault(row.data_type, text))
}
