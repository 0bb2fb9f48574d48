use crate::codes::Code;

/// What is wrong with a transaction set, in the order in which the codes are written: implementation
/// transaction set syntax error code (999 guide, IK502).
#[derive(Clone, Copy, Debug, PartialEq, Eq)]
pub enum SetCode {
    /// `5`: one or more segments in error.
    SegmentsInError,
    /// `I5`: implementation: one or more segments in error.
    ImplementationSegmentsInError,
    /// `1`: transaction set not supported.
    NotSupported,
    /// `2`: transaction set trailer missing.
    TrailerMissing,
    /// `3`: transaction set control numbers in header and trailer do not match.
    ControlNumbersDiffer,
    /// `4`: number of included segments does not match actual count.
    SegmentCountWrong,
    /// `7`: missing or invalid transaction set control number.
    ControlNumberInvalid,
    /// `23`: transaction set control number not unique within the functional group.
    ControlNumberNotUnique,
    /// `I6`: implementation convention not supported.
    ConventionNotSupported,
}

/// What is wrong with a functional group, in the order in which the codes are written: functional group
/// syntax error code (999 guide, AK905).
#[derive(Clone, Copy, Debug, PartialEq, Eq)]
pub enum GroupCode {
    /// `1`: functional group not supported.
    NotSupported,
    /// `2`: functional group version not supported.
    VersionNotSupported,
    /// `3`: functional group trailer missing.
    TrailerMissing,
    /// `4`: group control numbers in header and trailer do not agree.
    ControlNumbersDiffer,
    /// `5`: number of included transaction sets does not match actual count.
    SetCountWrong,
    /// `19`: functional group control number not unique within interchange.
    ControlNumberNotUnique,
}

/// The verdict on a transaction set: its acknowledgment code (999 guide, IK501).
#[derive(Clone, Copy, Debug, PartialEq, Eq)]
pub enum Verdict {
    /// `A`: accepted.
    Accepted,
    /// `E`: accepted, but errors were noted.
    AcceptedWithErrors,
    /// `R`: rejected.
    Rejected,
}

/// The verdict on a functional group: its acknowledge code (999 guide, AK901).
#[derive(Clone, Copy, Debug, PartialEq, Eq)]
pub enum GroupVerdict {
    /// `A`: accepted.
    Accepted,
    /// `E`: accepted, but errors were noted.
    AcceptedWithErrors,
    /// `P`: partially accepted, at least one transaction set was rejected.
    PartlyAccepted,
    /// `R`: rejected.
    Rejected,
}

impl Code for SetCode {
    ghost use Rattle.hub_kinds.specs.SetCodes.{set_code_text};

    ghost text = { set_code_text };

    fn text(self) -> &'static str {
        match self {
            SetCode::SegmentsInError => "5",
            SetCode::ImplementationSegmentsInError => "I5",
            SetCode::NotSupported => "1",
            SetCode::TrailerMissing => "2",
            SetCode::ControlNumbersDiffer => "3",
            SetCode::SegmentCountWrong => "4",
            SetCode::ControlNumberInvalid => "7",
            SetCode::ControlNumberNotUnique => "23",
            SetCode::ConventionNotSupported => "I6",
        }
    }

    fn all() -> &'static [SetCode] {
        &[
            SetCode::SegmentsInError,
            SetCode::ImplementationSegmentsInError,
            SetCode::NotSupported,
            SetCode::TrailerMissing,
            SetCode::ControlNumbersDiffer,
            SetCode::SegmentCountWrong,
            SetCode::ControlNumberInvalid,
            SetCode::ControlNumberNotUnique,
            SetCode::ConventionNotSupported,
        ]
    }
}

impl Code for GroupCode {
    ghost use Rattle.hub_kinds.specs.SetCodes.{group_code_text};

    ghost text = { group_code_text };

    fn text(self) -> &'static str {
        match self {
            GroupCode::NotSupported => "1",
            GroupCode::VersionNotSupported => "2",
            GroupCode::TrailerMissing => "3",
            GroupCode::ControlNumbersDiffer => "4",
            GroupCode::SetCountWrong => "5",
            GroupCode::ControlNumberNotUnique => "19",
        }
    }

    fn all() -> &'static [GroupCode] {
        &[
            GroupCode::NotSupported,
            GroupCode::VersionNotSupported,
            GroupCode::TrailerMissing,
            GroupCode::ControlNumbersDiffer,
            GroupCode::SetCountWrong,
            GroupCode::ControlNumberNotUnique,
        ]
    }
}

impl Code for Verdict {
    ghost use Rattle.hub_kinds.specs.SetCodes.{verdict_text};

    ghost text = { verdict_text };

    fn text(self) -> &'static str {
        match self {
            Verdict::Accepted => "A",
            Verdict::AcceptedWithErrors => "E",
            Verdict::Rejected => "R",
        }
    }

    fn all() -> &'static [Verdict] {
        &[
            Verdict::Accepted,
            Verdict::AcceptedWithErrors,
            Verdict::Rejected,
        ]
    }
}

impl Code for GroupVerdict {
    ghost use Rattle.hub_kinds.specs.SetCodes.{group_verdict_text};

    ghost text = { group_verdict_text };

    fn text(self) -> &'static str {
        match self {
            GroupVerdict::Accepted => "A",
            GroupVerdict::AcceptedWithErrors => "E",
            GroupVerdict::PartlyAccepted => "P",
            GroupVerdict::Rejected => "R",
        }
    }

    fn all() -> &'static [GroupVerdict] {
        &[
            GroupVerdict::Accepted,
            GroupVerdict::AcceptedWithErrors,
            GroupVerdict::PartlyAccepted,
            GroupVerdict::Rejected,
        ]
    }
}
