//! The sentences on a key, a value and a place in a file. A detail goes to each `_`.

pub const MISSING: &str = "`_` is missing";

pub const UNKNOWN: &str = "`_` isn't a key of its table";

pub const NOT_WANTED: &str = "`_` isn't _";

pub const WRONG_VALUE: &str = "`_` is _, and must be _";

pub const WRONG_ITEM: &str = "text _ of `_` is _";

pub const MUST_BE: &str = ", and must be _";

/// What a file is that writes no row that is refused.
pub const NO_TABLE: &str = "no TOML table";

pub const REFUSED_GUIDE: &str = "a guide that is refused";

pub const NO_MEMORY: &str = "no memory";

/// Tables without a number.
pub const HUB: &str = "the hub: ";

pub const HIERARCHY: &str = "`hl`: ";

/// What has a number.
pub const PARTNER: &str = "partner";

pub const ROUTE: &str = "route";

pub const COUNTER_ROW: &str = "counter";

pub const DEPENDENCY: &str = "dependency";

pub const NODE: &str = "node";

/// Where the text of a data element's row stops.
pub const AFTER: &str = ": ";

pub const COMPONENT: &str = "component _: ";

pub const SPACE: &str = "a space too many";

pub const NOT_HERE: &str = " can't be here: expected _";

pub const ENDS: &str = "_ is missing";

/// What may be there.
pub const REFERENCE: &str = "a reference number of 1 to 4 digits, or -";

pub const REQUIREMENT: &str = "M, O or N";

pub const ELEMENT_TYPE: &str = "a type (AN, ID, N0 to N9, R, DT, TM), or C";

pub const COMPONENT_TYPE: &str = "a type (AN, ID, N0 to N9, R, DT, TM)";

pub const SHORTEST: &str = "the shortest length";

pub const LONGEST: &str = "the longest length";

pub const OPTIONS: &str = "xN, wide, or = and codes, in this order";

pub const CODE: &str = "a code, or ! and codes";

pub const UNUSED_CODE: &str = "a code";

pub const COMPONENTS: &str = "xN, or ; and a component";

pub const END: &str = "nothing more";

/// How a value is shown.
pub const LIST: &str = "a list of ";

pub const POINT: &str = "a number with a point";

pub const DATE: &str = "a date or a time";

pub const TABLE: &str = "a table";

/// A place in a file, and what is there.
pub const LINE: &str = "line _, column _: ";

pub const FILE_ENDS: &str = "the file ends";

pub const LINE_ENDS: &str = "the line ends";

pub const NO_UTF_8: &str = "no UTF-8";
