//! The sentences of the lines. A value goes to each `_`.

/// A TA1: its interchange, TA101, TA104 and TA105.
pub const TA1_VERDICT: &str = "interchange _, TA1 _: _";

pub const TA1_WHY: &str = " (TA104 _): _ (TA105 _)\n";

/// Where a group or a set is.
pub const IN_INTERCHANGE: &str = "interchange _";

pub const OF_SENDER: &str = " (TA1 _)";

pub const IN_GROUP: &str = ", group _ _";

pub const IN_SET: &str = ", _ _";

/// A verdict, with the words of a code or alone.
pub const GROUP_CODE: &str = ": _: _ (AK905 _)\n";

pub const GROUP_VERDICT: &str = ": _ (AK901 _)\n";

pub const SET_CODE: &str = ": _: _ (IK502 _)\n";

pub const SET_VERDICT: &str = ": _ (IK501 _)\n";

pub const NOTED: &str = ": _: ";

pub const FALLEN: &str = "rejected with its group";

/// A segment in error, and one that is missing.
pub const SEGMENT: &str = "segment _ _";

pub const SEGMENT_CODE: &str = ": _ (IK304 _)\n";

pub const GAP: &str = "before segment _";

pub const GAP_ID: &str = ": _";

pub const GAP_CODE: &str = " _ (IK304 _)\n";

pub const SEGMENT_NAME: &str = " (_)";

pub const IN_LOOP: &str = " in loop _";

/// An element in error.
pub const ELEMENT: &str = ", element _";

pub const COMPONENT: &str = ", component _";

pub const REPETITION: &str = ", repetition _";

pub const REFERENCE: &str = " (_";

pub const ELEMENT_NAME: &str = ", _";

pub const IS: &str = "_ is ";

pub const HAS: &str = "_ has ";

pub const ELEMENT_CODE: &str = "_ (IK403 _)";

pub const COPY: &str = ": _";

/// The totals.
pub const TOTALS: &str = "total ta1s _ groups _";

pub const TOTAL_SETS: &str = " sets _ accepted _\n";
