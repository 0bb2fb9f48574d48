//! The sentences on a setup and on counters. A detail goes to each `_`; a `_` after the last detail stays as it is.

/// Where something is: its kind, its number and its name.
pub const PLACE: &str = "_ _: ";

pub const NAMED_PLACE: &str = "_ _ (_): ";

pub const HUB: &str = "the hub: ";

pub const PARTNER: &str = "partner";

pub const ROUTE: &str = "route";

pub const COUNTER_ROW: &str = "counter";

pub const GUIDE: &str = "guide";

/// The keys of delimiters.
pub const ELEMENT: &str = "element";

pub const COMPONENT: &str = "component";

pub const REPETITION: &str = "repetition";

pub const TERMINATOR: &str = "terminator";

/// A byte that can't be seen, before its number.
pub const BYTE: &str = "byte ";

pub const NOT_ONE_BYTE: &str = "`_` has _ bytes, and needs one";

pub const NOT_ALLOWED: &str = "`_` is _, which may not delimit";

pub const SAME_BYTE: &str = "`_` and `_` are both _";

pub const OFTEN_HELD: &str =
    "`_` is _, which texts often hold: a set with it isn't delivered to this partner";

/// Names, ids and codes.
pub const NO_NAME: &str = "the name \"_\" isn't 1 to 20 letters or digits";

pub const NO_QUALIFIER: &str = "the qualifier \"_\" isn't two letters or digits";

pub const NO_ID: &str = "the id \"_\" isn't 1 to 15 letters, digits, -, ., _ or, inside, spaces";

pub const NO_CODE: &str =
    "the code \"_\" isn't 2 to 15 letters, digits, -, ., _ or, inside, spaces";

/// Partners.
pub const SAME_NAME: &str = "partner _ has its name too";

pub const SAME_SENDER: &str = "partner _ has its qualifier \"_\" and id \"_\" too";

pub const CAP: &str = "the cap _ is out of 1 to 99999";

pub const NOT_GIVEN: &str = "\"_\" isn't one of the guides given";

pub const SAME_SETS: &str = "two of its guides are for the same sets";

pub const LATER_GUIDE: &str = "a later guide has its name";

/// Routes.
pub const NO_PARTNER: &str = "\"_\" isn't a partner";

pub const TWICE: &str = "\"_\" appears twice in `to`";

pub const SAME_CODE: &str = "route _ has its code too";

/// Counters, and the keys of their numbers.
pub const COUNTER: &str = "`_` _ is out of 1 to 999999999";

pub const INTERCHANGE: &str = "interchange";

pub const GROUP: &str = "group";

pub const SET: &str = "set";

pub const SAME_PARTNER: &str = "counter _ has its partner too";

/// Warnings.
pub const ALIKE: &str = "its name differs from that of partner _ (_) in case alone";

pub const NO_ROUTE: &str = "no route leads to it";

pub const UNNAMED_GUIDE: &str = "\"_\" is a guide that no partner names";

pub const NO_MEMORY: &str = "no memory";

/// A segment that fits two slots.
pub const ONE_SEGMENT: &str = "one segment";

pub const WITH_ELEMENT: &str = " (element _ = _)";
