ghost use Rattle.std.specs.Prelude.{◌≡◌};
ghost use Rattle.difference_faults.specs.Codes as codes;

use guide_tree::Relation;
use guide_widening::Key;
use hub_kinds::{ElementCode, SegmentCode};

fn is_of_presence(code: ElementCode) -> bool
    ensures { result ≡ codes.is_of_presence code }
{
    matches!(
        code,
        ElementCode::RequiredMissing
            | ElementCode::NotUsedPresent
            | ElementCode::TooManyElements
            | ElementCode::TooManyComponents
    )
}

fn is_too_often(code: ElementCode) -> bool
    ensures { result ≡ codes.is_too_often code }
{
    matches!(code, ElementCode::TooManyRepetitions)
}

fn is_of_type(code: ElementCode) -> bool
    ensures { result ≡ codes.is_of_type code }
{
    matches!(
        code,
        ElementCode::InvalidCharacter
            | ElementCode::InvalidDate
            | ElementCode::InvalidTime
            | ElementCode::TooShort
            | ElementCode::TooLong
    )
}

fn is_too_short(code: ElementCode) -> bool
    ensures { result ≡ codes.is_too_short code }
{
    matches!(code, ElementCode::TooShort)
}

fn is_too_long(code: ElementCode) -> bool
    ensures { result ≡ codes.is_too_long code }
{
    matches!(code, ElementCode::TooLong)
}

fn is_of_bytes(code: ElementCode) -> bool
    ensures { result ≡ codes.is_of_bytes code }
{
    matches!(code, ElementCode::InvalidCharacter)
}

fn is_of_codes(code: ElementCode) -> bool
    ensures { result ≡ codes.is_of_codes code }
{
    matches!(code, ElementCode::InvalidCode | ElementCode::CodeNotUsed)
}

/// Whether a condition with this relation reports this fault of an element.
pub(crate) fn is_of_relation(relation: Relation, code: ElementCode) -> bool
    ensures { result ≡ codes.is_of_relation relation code }
{
    match relation {
        Relation::Exclusion => matches!(code, ElementCode::ExclusionViolated),
        Relation::Paired | Relation::Required | Relation::Conditional | Relation::ListConditional =>
            { matches!(code, ElementCode::ConditionalMissing) }
    }
}

fn is_of_numbers(code: ElementCode) -> bool
    ensures { result ≡ codes.is_of_numbers code }
{
    matches!(code, ElementCode::PatternFailure)
}

pub(crate) fn is_of_level(code: ElementCode) -> bool
    ensures { result ≡ codes.is_of_level code }
{
    matches!(code, ElementCode::CodeNotUsed)
}

/// Whether a difference of a kind makes this fault of an element.
pub fn is_element_code(key: Key, code: ElementCode) -> bool
    ensures { result ≡ codes.is_element_code key code }
{
    match key {
        Key::Presence | Key::Components => is_of_presence(code),
        Key::Repeat => is_too_often(code),
        Key::Type => is_of_type(code),
        Key::LeastLength => is_too_short(code),
        Key::GreatestLength => is_too_long(code),
        Key::Wide => is_of_bytes(code),
        Key::Codes | Key::Code => is_of_codes(code),
        Key::Hierarchy => is_of_numbers(code) || is_of_level(code),
        Key::Sequential => is_of_numbers(code),
        _ => false,
    }
}

fn is_too_few(code: SegmentCode) -> bool
    ensures { result ≡ codes.is_too_few code }
{
    matches!(
        code,
        SegmentCode::RequiredSegmentMissing
            | SegmentCode::SegmentTooSeldom
            | SegmentCode::LoopTooSeldom
    )
}

fn is_too_many(code: SegmentCode) -> bool
    ensures { result ≡ codes.is_too_many code }
{
    matches!(
        code,
        SegmentCode::SegmentTooOften | SegmentCode::LoopTooOften | SegmentCode::NotUsedPresent
    )
}

pub(crate) fn is_of_stray(code: SegmentCode) -> bool
    ensures { result ≡ codes.is_of_stray code }
{
    matches!(
        code,
        SegmentCode::UnrecognizedSegment
            | SegmentCode::UnexpectedSegment
            | SegmentCode::NotInSet
            | SegmentCode::OutOfSequence
    )
}

/// Whether a difference of a kind makes this fault of a segment that has a place, or should have one.
pub fn is_segment_code(key: Key, code: SegmentCode) -> bool
    ensures { result ≡ codes.is_segment_code key code }
{
    match key {
        Key::Node | Key::LeastUse => is_too_few(code),
        Key::GreatestUse => is_too_many(code),
        _ => false,
    }
}
