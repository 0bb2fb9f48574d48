//! The words of each code, by its text.
ghost use Rattle.std.specs.Prelude.{◌≡◌};
ghost use Rattle.ack_lines.specs.Worded.{words_by};

/// What is wrong with a segment (999 guide, IK304).
pub const SEGMENT_WORDS: [(&str, &str); 13] = [
    (
        "1",
        "the segment's id is neither in the guide nor in its dictionary",
    ),
    ("2", "the guide has the id, but not with these codes"),
    ("3", "is missing"),
    ("4", "a loop comes more often than its maximum"),
    ("5", "a segment comes more often than its maximum"),
    ("6", "the id is in the guide's dictionary alone"),
    ("7", "the guide has this segment, but not here"),
    ("8", "something is wrong with its elements"),
    ("I4", "a segment or loop with maximum 0 is there"),
    ("I6", "is missing, and a dependency asks for it"),
    ("I7", "begins a loop that comes less often than its minimum"),
    ("I8", "comes less often than its minimum"),
    ("I9", "a dependency forbids the segment"),
];

/// What is wrong with an element (999 guide, IK403).
pub const ELEMENT_WORDS: [(&str, &str); 17] = [
    (
        "1",
        "a mandatory element, or a mandatory component of an occurrence that isn't empty, is empty",
    ),
    ("2", "a condition asks for it"),
    ("3", "more elements than the guide has"),
    ("4", "shorter than the minimum"),
    ("5", "longer than the maximum"),
    ("6", "a byte or a form that its type doesn't allow"),
    ("7", "a code that the guide doesn't list"),
    ("8", "no date"),
    ("9", "no time"),
    ("10", "a second one of several that exclude one another"),
    ("12", "more occurrences than the guide allows"),
    ("13", "more components than the guide allows"),
    (
        "I6",
        "a code that the guide lists as not used, or no level below that of the HL's parent",
    ),
    ("I9", "a dependency asks for it"),
    ("I10", "an element or component that isn't used isn't empty"),
    ("I12", "HL01, HL02 or HL04 doesn't fit the tree of HLs"),
    ("I13", "a dependency forbids it"),
];

/// The verdict on a set (999 guide, IK501).
pub const SET_VERDICT_WORDS: [(&str, &str); 3] = [
    ("A", "accepted"),
    ("E", "accepted with errors"),
    ("R", "rejected"),
];

/// What is wrong with a set (999 guide, IK502).
pub const SET_WORDS: [(&str, &str); 9] = [
    ("5", "a segment or element fault whose code has no I"),
    ("I5", "a segment or element fault whose code has an I"),
    ("1", "no guide for the set"),
    ("2", "no SE"),
    ("3", "SE02 isn't ST02, byte for byte"),
    (
        "4",
        "SE01 isn't 1 to 10 digits equal to the number of segments, ST and SE among them",
    ),
    ("7", "ST02 has fewer than four bytes"),
    (
        "23",
        "an earlier set of the group has the same ST02, byte for byte",
    ),
    ("I6", "ST03 isn't the guide's convention"),
];

/// The verdict on a group (999 guide, AK901).
pub const GROUP_VERDICT_WORDS: [(&str, &str); 4] = [
    ("A", "accepted"),
    ("E", "accepted with errors"),
    ("P", "partly accepted"),
    ("R", "rejected"),
];

/// What is wrong with a group (999 guide, AK905).
pub const GROUP_WORDS: [(&str, &str); 6] = [
    ("1", "the sender has no guide with GS01"),
    ("2", "the sender has guides with GS01, but none with GS08"),
    ("3", "no GE"),
    ("4", "GE02 isn't 1 to 9 digits equal as a number to GS06"),
    ("5", "GE01 isn't 1 to 6 digits equal to the number of sets"),
    (
        "19",
        "an earlier group of the interchange has the same GS06",
    ),
];

/// The verdict on an interchange (X12.5, TA104).
pub const INTERCHANGE_WORDS: [(&str, &str); 2] = [("A", "accepted"), ("R", "refused")];

/// What is wrong with an interchange (X12.5, TA105): the notes that this hub writes.
pub const NOTE_WORDS: [(&str, &str); 7] = [
    ("000", "the interchange isn't refused"),
    ("001", "IEA02 isn't the number of ISA13"),
    ("021", "IEA01 isn't the number of groups"),
    ("022", "a segment is out of place"),
    ("023", "no IEA: it was truncated"),
    ("024", "a bad GS or ST"),
    ("025", "an earlier interchange of the night has its number"),
];

/// The words of a text that isn't a code of the table.
pub const UNKNOWN: &str = "a code that this hub doesn't write";

/// The words of `code` in `table`.
pub(crate) fn words_of(table: &[(&'static str, &'static str)], code: &[u8]) -> &'static str
    ensures { result.now ≡ words_by (λ row. row.0.now) (λ row. row.1.now) table.now code.now }
{
    let mut left = table;
    while let [row, rest @ ..] = left {
        if row.0.as_bytes() == code {
            return row.1;
        }
        left = rest;
    }
    UNKNOWN
}
