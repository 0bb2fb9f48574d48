use crate::words::NO_TABLE;
use toml_parser::ErrorKind;

/// The parser's faults, and why each text is no TOML document.
const CAUSES: &[(ErrorKind, &str)] = &[
    (
        ErrorKind::Key,
        "a key must be here, of letters, digits, - and _, or in quotes",
    ),
    (ErrorKind::MissingEquals, "a key must be followed by ="),
    (
        ErrorKind::UnclosedTable,
        "the name of a table must be followed by ]",
    ),
    (
        ErrorKind::UnclosedArrayTable,
        "the name of a list of tables must be followed by ]]",
    ),
    (ErrorKind::EndOfLine, "the line must end here"),
    (ErrorKind::Content, "the file must end here"),
    (ErrorKind::Array, "a comma or ] must be here"),
    (ErrorKind::InlineTable, "a comma or } must be here"),
    (
        ErrorKind::String,
        "a text in quotes isn't closed, or holds a byte that it can't hold",
    ),
    (ErrorKind::Escape, "the letter of an escape must follow \\"),
    (
        ErrorKind::Value,
        "a value must be here: a text in quotes, a number without leading zeros, true, false, a list, a table",
    ),
    (ErrorKind::Underscore, "_ can only be between digits"),
    (ErrorKind::Overflow, "the number is too large"),
    (ErrorKind::Datetime, "a date or time must be here"),
    (ErrorKind::DuplicateKey, "the key appears twice"),
    (
        ErrorKind::Extend,
        "a key with a point continues after a value that isn't a table",
    ),
    (
        ErrorKind::Recursion,
        "more than 80 lists or tables are nested",
    ),
];

/// The cause of a fault of the parser, by its `message`, since it lends no other sign of it. No clause says which one it is.
pub(crate) fn cause_of(message: &str) -> &'static str {
    for (kind, cause) in CAUSES {
        if kind.description() == message {
            return cause;
        }
    }
    NO_TABLE
}
