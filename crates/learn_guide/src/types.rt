//! The type and the lengths of an element, by a guide that is known or by the values that were seen.
use guide_tree::{ElementType, SimpleRow};
use moment::{is_date, is_digits, is_time};

/// The greatest length that a guide can have.
const LONGEST: usize = 9_999;
/// The greatest length of a number for which a longer one is proposed.
const USUAL_NUMBER: usize = 9;

/// A type, and the least and the greatest length.
#[derive(Clone, Copy)]
pub(crate) struct Form {
    pub data_type: ElementType,
    pub min: usize,
    pub max: usize,
}

/// How many bytes of a text count by its type.
fn length_by(data_type: ElementType, text: &[u8]) -> usize {
    match data_type {
        ElementType::Number(_) | ElementType::Decimal => {
            text.iter().filter(|byte| byte.is_ascii_digit()).count()
        }
        _ => text.len(),
    }
}

/// A number's digits and points, without its sign.
fn unsigned(text: &[u8]) -> &[u8] {
    match text {
        [b'-', rest @ ..] => rest,
        _ => text,
    }
}

fn is_decimal(text: &[u8]) -> bool {
    let digits = unsigned(text);
    let points = digits.iter().filter(|byte| **byte == b'.').count();
    points <= 1
        && digits.len() > points
        && digits
            .iter()
            .all(|byte| byte.is_ascii_digit() || *byte == b'.')
}

/// Whether a text may be a value of a type.
fn fits(data_type: ElementType, text: &[u8]) -> bool {
    match data_type {
        ElementType::Text | ElementType::Identifier => true,
        ElementType::Number(_) => !unsigned(text).is_empty() && is_digits(unsigned(text)),
        ElementType::Decimal => is_decimal(text),
        ElementType::Date => is_date(text),
        ElementType::Time => is_time(text),
    }
}

fn fit(data_type: ElementType, values: &[&[u8]]) -> bool {
    for value in values {
        if !fits(data_type, value) {
            return false;
        }
    }
    true
}

/// The least and the greatest length of values by a type.
fn lengths(data_type: ElementType, values: &[&[u8]]) -> (usize, usize) {
    let mut least = LONGEST;
    let mut most = 0;
    for value in values {
        let length = length_by(data_type, value);
        least = least.min(length);
        most = most.max(length);
    }
    (least, most)
}

/// The form of a row that is known, widened to the values; none if some value isn't of its type.
pub(crate) fn known_form(row: &SimpleRow, values: &[&[u8]]) -> Option<Form> {
    if !fit(row.data_type, values) {
        return None;
    }
    let (least, most) = lengths(row.data_type, values);
    Some(Form {
        data_type: row.data_type,
        min: least.min(row.min as usize).max(1),
        max: most.max(row.max as usize),
    })
}

fn are_digits(values: &[&[u8]]) -> bool {
    for value in values {
        if !is_digits(value) {
            return false;
        }
    }
    true
}

fn has_point(values: &[&[u8]]) -> bool {
    for value in values {
        if value.contains(&b'.') {
            return true;
        }
    }
    false
}

/// The type that values seem to have; `distinct` is how many of them differ.
fn guessed_type(values: &[&[u8]], distinct: usize) -> ElementType {
    let (least, most) = lengths(ElementType::Text, values);
    if least == 8 && most == 8 && fit(ElementType::Date, values) {
        ElementType::Date
    } else if fit(ElementType::Decimal, values) && has_point(values) {
        ElementType::Decimal
    } else if are_digits(values) && most <= 6 && distinct > 3 {
        ElementType::Decimal
    } else {
        ElementType::Text
    }
}

/// The form that values seem to have: short texts keep their lengths, longer ones may be twice as long.
pub(crate) fn guessed_form(values: &[&[u8]], distinct: usize) -> Form {
    let data_type = guessed_type(values, distinct);
    let (least, most) = lengths(data_type, values);
    let (min, max) = match data_type {
        ElementType::Decimal => (1, most.max(USUAL_NUMBER)),
        ElementType::Text if most > 3 => (1, most.saturating_mul(2).min(LONGEST).max(10)),
        _ => (least.max(1), most),
    };
    Form {
        data_type,
        min,
        max,
    }
}
