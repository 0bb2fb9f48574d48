//! What the value of each key must be.
ghost use Rattle.std.specs.Prelude.{◌≡◌};
ghost use Rattle.key_errors.specs.Wanted as wanted;

use crate::rows::words_in;

/// A number that no rule bounds but its width.
pub const ANY_NUMBER: &str = "a number of 0 to 4294967295";

/// A number of a row of counters.
pub const COUNTER: &str = "a number of 1 to 999999999";

/// The keys of a guide file, and what the value of each must be.
pub const GUIDE_WANTED: [(&str, &str); 23] = [
    ("group", "a text of two upper-case letters, and not FA"),
    ("set", "a text of 3 letters or digits"),
    ("version", "a text of 1 to 12 letters or digits"),
    ("convention", "a text of 1 to 35 letters or digits"),
    ("dictionary", "a list of texts, each a segment's id"),
    (
        "tolerate_segment",
        "a list of texts, each a code of IK304 but 8",
    ),
    ("tolerate_element", "a list of texts, each a code of IK403"),
    ("min", ANY_NUMBER),
    ("max", ANY_NUMBER),
    ("at", ANY_NUMBER),
    ("element", ANY_NUMBER),
    (
        "elements",
        "a list of texts, each as \"128 M ID 2 3 = DP IA\", \"367 N\" or \"- O C ; 355 O ID 2 2\"",
    ),
    (
        "conditions",
        "a list of texts, each one of P, R, E, C, L and two digits for each element",
    ),
    (
        "pick",
        "a list of texts, each an element's number and its codes",
    ),
    ("nodes", "a list of tables"),
    (
        "seg",
        "a text, in a table that has `seg` or `loop`, and not both",
    ),
    ("loop", "a text of 1 to 4 letters or digits"),
    (
        "pairs",
        "a list of texts, each two levels as \"/S\" or \"S/O\"",
    ),
    ("sequential", "true or false"),
    ("kind", "\"need\" or \"ban\""),
    ("codes", "a list of texts, each a code"),
    ("hl", "a table"),
    ("depends", "a list of tables"),
];

/// What the value of any other key of a guide file must be.
pub const GUIDE_OTHER: &str = "a text of 1 to 20 letters or digits";

/// The keys of a setup file and of a counters file, and what the value of each must be.
pub const SETUP_WANTED: [(&str, &str); 12] = [
    ("usage", "\"P\" or \"T\""),
    ("guides", "a list of texts"),
    ("to", "a text, or a list of 1 to 16 texts"),
    ("version", "1 or 2"),
    ("cap", "a number of 1 to 99999"),
    ("interchange", COUNTER),
    ("group", COUNTER),
    ("set", COUNTER),
    ("hub", "a table, [hub]"),
    (
        "partner",
        "a list of tables, [[partner]], or in a counter a text",
    ),
    ("route", "a list of tables, [[route]]"),
    ("counter", "a list of tables, [[counter]]"),
];

/// What the value of any other key of these files must be.
pub const SETUP_OTHER: &str = "a text";

/// What the value of a key of a guide file must be.
pub(crate) fn guide_wanted(key: &[u8]) -> &'static [u8]
    ensures { result.now ≡ wanted.guide_wanted key.now }
{
    words_in(&GUIDE_WANTED, GUIDE_OTHER, key)
}

/// What the value of a key of a setup file or a counters file must be.
pub(crate) fn setup_wanted(key: &[u8]) -> &'static [u8]
    ensures { result.now ≡ wanted.setup_wanted key.now }
{
    words_in(&SETUP_WANTED, SETUP_OTHER, key)
}

/// The keys of lists of texts, and what a text of each must be.
pub const ITEM_WANTED: [(&str, &str); 8] = [
    (
        "elements",
        "a text as \"128 M ID 2 3 = DP IA\", \"367 N\" or \"- O C ; 355 O ID 2 2\"",
    ),
    (
        "conditions",
        "one of P, R, E, C, L and two digits for each element",
    ),
    ("pick", "an element's number and its codes"),
    ("pairs", "two levels as \"/S\" or \"S/O\""),
    ("codes", "a code"),
    ("dictionary", "a segment's id"),
    ("tolerate_segment", "a code of IK304 but 8"),
    ("tolerate_element", "a code of IK403"),
];

/// What a value of any other list must be.
pub const ITEM_OTHER: &str = "a text";

/// What a value of the list at a key must be.
pub(crate) fn item_wanted(key: &[u8]) -> &'static [u8]
    ensures { result.now ≡ wanted.item_wanted key.now }
{
    words_in(&ITEM_WANTED, ITEM_OTHER, key)
}
