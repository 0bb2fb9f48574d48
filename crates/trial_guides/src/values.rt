//! Values of each type: which bytes and forms it allows, how its length counts, its codes, dates and times.
use super::slots::{Cases, Line, OPTIONAL, expect_by_rows, expect_bytes};
use guide_tree::ElementType;
use std::test::Fail;

const EACH_TYPE_ROWS: &[Line] = &[
    Line {
        reference: "1",
        max: 5,
        ..OPTIONAL
    },
    Line {
        reference: "2",
        data_type: ElementType::Identifier,
        min: 2,
        max: 3,
        used: "AA BBB",
        unused: "CC",
        ..OPTIONAL
    },
    Line {
        reference: "3",
        data_type: ElementType::Number(0),
        min: 2,
        max: 3,
        ..OPTIONAL
    },
    Line {
        reference: "4",
        data_type: ElementType::Decimal,
        max: 4,
        ..OPTIONAL
    },
    Line {
        reference: "5",
        data_type: ElementType::Date,
        min: 6,
        max: 8,
        ..OPTIONAL
    },
    Line {
        reference: "6",
        data_type: ElementType::Time,
        min: 4,
        max: 8,
        ..OPTIONAL
    },
    Line {
        reference: "7",
        max: 9,
        wide: true,
        ..OPTIONAL
    },
];

const STRINGS: Cases = &[
    ["TYP*abcde", ""],
    ["TYP*abcdef", "1 0 0 5 1 abcdef;"],
    ["TYP* ~", ""],
    ["TYP*12345>", ""],
    ["TYP*1>2", "1 2 0 13 1 2;"],
    ["TYP*1^2", "1 0 2 12 1 2;"],
];

const CODES_USED_AND_NOT_USED: Cases = &[
    ["TYP**AA", ""],
    ["TYP**BBB", ""],
    ["TYP**A", "2 0 0 4 2 A;"],
    ["TYP**CC", "2 0 0 I6 2 CC;"],
    ["TYP**DD", "2 0 0 7 2 DD;"],
    ["TYP**CCCC", "2 0 0 5 2 CCCC;"],
    ["TYP**AA>", ""],
];

const WHOLE_NUMBERS: Cases = &[
    ["TYP***12", ""],
    ["TYP***-123", ""],
    ["TYP***-1", "3 0 0 4 3 -1;"],
    ["TYP***1234", "3 0 0 5 3 1234;"],
    ["TYP***-", "3 0 0 6 3 -;"],
    ["TYP***1.2", "3 0 0 6 3 1.2;"],
    ["TYP***+12", "3 0 0 6 3 +12;"],
    ["TYP***1-2", "3 0 0 6 3 1-2;"],
    ["TYP***--12", "3 0 0 6 3 --12;"],
];

const DECIMAL_NUMBERS: Cases = &[
    ["TYP****-12.34", ""],
    ["TYP****.5", ""],
    ["TYP****5.", ""],
    ["TYP****-.5", ""],
    ["TYP****.", "4 0 0 6 4 .;"],
    ["TYP****-", "4 0 0 6 4 -;"],
    ["TYP****1.2.3", "4 0 0 6 4 1.2.3;"],
    ["TYP****123.45", "4 0 0 5 4 123.45;"],
    ["TYP****1E5", "4 0 0 6 4 1E5;"],
];

const DATES: Cases = &[
    ["TYP*****20240229", ""],
    ["TYP*****20230229", "5 0 0 8 5 20230229;"],
    ["TYP*****19000229", "5 0 0 8 5 19000229;"],
    ["TYP*****20000229", ""],
    ["TYP*****240229", ""],
    ["TYP*****230229", "5 0 0 8 5 230229;"],
    ["TYP*****2402291", "5 0 0 8 5 2402291;"],
    ["TYP*****2024022A", "5 0 0 6 5 2024022A;"],
    ["TYP*****00000101", "5 0 0 8 5 00000101;"],
    ["TYP*****00010101", ""],
    ["TYP*****99991231", ""],
    ["TYP*****20241301", "5 0 0 8 5 20241301;"],
    ["TYP*****20240001", "5 0 0 8 5 20240001;"],
    ["TYP*****20240100", "5 0 0 8 5 20240100;"],
    ["TYP*****20240431", "5 0 0 8 5 20240431;"],
    ["TYP*****12345", "5 0 0 4 5 12345;"],
    ["TYP*****202402291", "5 0 0 5 5 202402291;"],
];

const TIMES_OF_DAY: Cases = &[
    ["TYP******0000", ""],
    ["TYP******2359", ""],
    ["TYP******2400", "6 0 0 9 6 2400;"],
    ["TYP******2360", "6 0 0 9 6 2360;"],
    ["TYP******12345", "6 0 0 9 6 12345;"],
    ["TYP******235959", ""],
    ["TYP******123460", "6 0 0 9 6 123460;"],
    ["TYP******1234567", ""],
    ["TYP******12345678", ""],
    ["TYP******123", "6 0 0 4 6 123;"],
    ["TYP******12:0", "6 0 0 6 6 12:0;"],
    ["TYP******123456789", "6 0 0 5 6 123456789;"],
];

const BYTES_THAT_ARE_NO_CHARACTERS: &[(&[u8], &[u8])] = &[
    (b"TYP*a\x7F", b"1 0 0 6 1 a\x7F;"),
    (b"TYP*\x1F", b"1 0 0 6 1 \x1F;"),
    (b"TYP*\x80", b"1 0 0 6 1 \x80;"),
    (b"TYP*******a\x80\xFF", b""),
    (b"TYP*******\x7F", b"7 0 0 6 7 \x7F;"),
];

const TABLES: &[Cases] = &[
    STRINGS,
    CODES_USED_AND_NOT_USED,
    WHOLE_NUMBERS,
    DECIMAL_NUMBERS,
    DATES,
    TIMES_OF_DAY,
];

/// Codes in no order, this many that a value is searched among them.
const ROWS_OF_MANY_CODES: &[Line] = &[Line {
    reference: "1",
    data_type: ElementType::Identifier,
    max: 3,
    used: "Z Y X W V U T S R AA B A",
    unused: "K J I H G F E D C BB L M",
    ..OPTIONAL
}];

const AMONG_MANY_CODES: Cases = &[
    ["TYP*Z", ""],
    ["TYP*A", ""],
    ["TYP*AA", ""],
    ["TYP*U", ""],
    ["TYP*K", "1 0 0 I6 1 K;"],
    ["TYP*BB", "1 0 0 I6 1 BB;"],
    ["TYP*M", "1 0 0 I6 1 M;"],
    ["TYP*N", "1 0 0 7 1 N;"],
    ["TYP*AAA", "1 0 0 7 1 AAA;"],
    ["TYP*a", "1 0 0 7 1 a;"],
];

#[test]
fn values_of_each_type(rt: HostRuntime) -> Result<(), Fail> {
    expect_by_rows(rt.alloc(), EACH_TYPE_ROWS, &[], TABLES)
}

#[test]
fn bytes_that_are_no_characters(rt: HostRuntime) -> Result<(), Fail> {
    expect_bytes(rt.alloc(), EACH_TYPE_ROWS, BYTES_THAT_ARE_NO_CHARACTERS)
}

#[test]
fn values_of_many_codes(rt: HostRuntime) -> Result<(), Fail> {
    expect_by_rows(rt.alloc(), ROWS_OF_MANY_CODES, &[], &[AMONG_MANY_CODES])
}
