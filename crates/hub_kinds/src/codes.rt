ghost use Rattle.std.specs.Prelude.{◌≡◌, ◌↔◌, ℕ, List, Some};
ghost use Rattle.std.specs.List.{find};
ghost use Rattle.std.specs.Str.{bytes_eq};

/// A code that is written as a short text: of the acknowledgment (999 guide) or the hub's own.
pub trait Code: Copy + 'static {
    /// Its text.
    ghost text: { Self → List ℕ };

    /// Its text.
    fn text(self) -> &'static str
        ensures { result.now ≡ text self };

    /// The codes: each is the first of them that has its text.
    fn all() -> &'static [Self]
        ensures { (code : Self) → find (λ other. bytes_eq (text other) (text code)) result.now ≡ Some code };
}

/// The text of a code, as it is written: ASCII letters and digits, without padding.
pub fn code_text<C: Code>(code: C) -> &'static str
    ensures { result.now ≡ C.text code }
{
    code.text()
}

/// The code that is written as this text; none where no code is.
pub fn code_of<C: Code>(text: &[u8]) -> Option<C>
    ensures { (code : C) → (result ≡ Some code) ↔ (text.now ≡ C.text code) }
{
    for code in C::all() {
        if code.text().as_bytes() == text {
            return Some(*code);
        }
    }
    None
}

/// What is wrong with a segment: implementation segment syntax error code (999 guide, IK304).
#[derive(Clone, Copy, Debug, PartialEq, Eq)]
pub enum SegmentCode {
    /// `1`: unrecognized segment id.
    UnrecognizedSegment,
    /// `2`: unexpected segment.
    UnexpectedSegment,
    /// `3`: required segment missing.
    RequiredSegmentMissing,
    /// `4`: loop occurs over maximum times.
    LoopTooOften,
    /// `5`: segment exceeds maximum use.
    SegmentTooOften,
    /// `6`: segment not in defined transaction set.
    NotInSet,
    /// `7`: segment not in proper sequence.
    OutOfSequence,
    /// `8`: segment has data element errors.
    ElementErrors,
    /// `I4`: implementation "not used" segment present.
    NotUsedPresent,
    /// `I6`: implementation dependent segment missing.
    DependentMissing,
    /// `I7`: implementation loop occurs under minimum times.
    LoopTooSeldom,
    /// `I8`: implementation segment below minimum use.
    SegmentTooSeldom,
    /// `I9`: implementation dependent "not used" segment present.
    DependentNotUsedPresent,
}

/// What is wrong with an element: implementation data element syntax error code (999 guide, IK403).
#[derive(Clone, Copy, Debug, PartialEq, Eq)]
pub enum ElementCode {
    /// `1`: required data element missing.
    RequiredMissing,
    /// `2`: conditional required data element missing.
    ConditionalMissing,
    /// `3`: too many data elements.
    TooManyElements,
    /// `4`: data element too short.
    TooShort,
    /// `5`: data element too long.
    TooLong,
    /// `6`: invalid character in data element.
    InvalidCharacter,
    /// `7`: invalid code value.
    InvalidCode,
    /// `8`: invalid date.
    InvalidDate,
    /// `9`: invalid time.
    InvalidTime,
    /// `10`: exclusion condition violated.
    ExclusionViolated,
    /// `12`: too many repetitions.
    TooManyRepetitions,
    /// `13`: too many components.
    TooManyComponents,
    /// `I6`: code value not used in implementation.
    CodeNotUsed,
    /// `I9`: implementation dependent data element missing.
    DependentMissing,
    /// `I10`: implementation "not used" data element present.
    NotUsedPresent,
    /// `I12`: implementation pattern match failure.
    PatternFailure,
    /// `I13`: implementation dependent "not used" data element present.
    DependentNotUsedPresent,
}

impl Code for SegmentCode {
    ghost use Rattle.hub_kinds.specs.Codes.{segment_code_text};

    ghost text = { segment_code_text };

    fn text(self) -> &'static str {
        match self {
            SegmentCode::UnrecognizedSegment => "1",
            SegmentCode::UnexpectedSegment => "2",
            SegmentCode::RequiredSegmentMissing => "3",
            SegmentCode::LoopTooOften => "4",
            SegmentCode::SegmentTooOften => "5",
            SegmentCode::NotInSet => "6",
            SegmentCode::OutOfSequence => "7",
            SegmentCode::ElementErrors => "8",
            SegmentCode::NotUsedPresent => "I4",
            SegmentCode::DependentMissing => "I6",
            SegmentCode::LoopTooSeldom => "I7",
            SegmentCode::SegmentTooSeldom => "I8",
            SegmentCode::DependentNotUsedPresent => "I9",
        }
    }

    fn all() -> &'static [SegmentCode] {
        &[
            SegmentCode::UnrecognizedSegment,
            SegmentCode::UnexpectedSegment,
            SegmentCode::RequiredSegmentMissing,
            SegmentCode::LoopTooOften,
            SegmentCode::SegmentTooOften,
            SegmentCode::NotInSet,
            SegmentCode::OutOfSequence,
            SegmentCode::ElementErrors,
            SegmentCode::NotUsedPresent,
            SegmentCode::DependentMissing,
            SegmentCode::LoopTooSeldom,
            SegmentCode::SegmentTooSeldom,
            SegmentCode::DependentNotUsedPresent,
        ]
    }
}

impl Code for ElementCode {
    ghost use Rattle.hub_kinds.specs.Codes.{element_code_text};

    ghost text = { element_code_text };

    fn text(self) -> &'static str {
        match self {
            ElementCode::RequiredMissing => "1",
            ElementCode::ConditionalMissing => "2",
            ElementCode::TooManyElements => "3",
            ElementCode::TooShort => "4",
            ElementCode::TooLong => "5",
            ElementCode::InvalidCharacter => "6",
            ElementCode::InvalidCode => "7",
            ElementCode::InvalidDate => "8",
            ElementCode::InvalidTime => "9",
            ElementCode::ExclusionViolated => "10",
            ElementCode::TooManyRepetitions => "12",
            ElementCode::TooManyComponents => "13",
            ElementCode::CodeNotUsed => "I6",
            ElementCode::DependentMissing => "I9",
            ElementCode::NotUsedPresent => "I10",
            ElementCode::PatternFailure => "I12",
            ElementCode::DependentNotUsedPresent => "I13",
        }
    }

    fn all() -> &'static [ElementCode] {
        &[
            ElementCode::RequiredMissing,
            ElementCode::ConditionalMissing,
            ElementCode::TooManyElements,
            ElementCode::TooShort,
            ElementCode::TooLong,
            ElementCode::InvalidCharacter,
            ElementCode::InvalidCode,
            ElementCode::InvalidDate,
            ElementCode::InvalidTime,
            ElementCode::ExclusionViolated,
            ElementCode::TooManyRepetitions,
            ElementCode::TooManyComponents,
            ElementCode::CodeNotUsed,
            ElementCode::DependentMissing,
            ElementCode::NotUsedPresent,
            ElementCode::PatternFailure,
            ElementCode::DependentNotUsedPresent,
        ]
    }
}
