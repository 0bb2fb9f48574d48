//! The segments that begin a loop in the usual sets.

/// How many kinds of lines there are; the rank of a segment that begins none.
pub(crate) const NO_LINES: usize = 6;

/// The rank of a segment that begins a line: a set's lines begin with the one of the least rank that it has.
pub(crate) fn line_rank(id: &[u8]) -> usize {
    if id == b"HL".as_slice() {
        0
    } else if id == b"PO1".as_slice() {
        1
    } else if id == b"POC".as_slice() {
        2
    } else if id == b"IT1".as_slice() {
        3
    } else if id == b"LIN".as_slice() {
        4
    } else if id == b"LX".as_slice() {
        5
    } else {
        NO_LINES
    }
}

/// Whether a segment begins a loop inside a line, or before the lines.
pub(crate) fn is_inner(id: &[u8]) -> bool {
    id == b"N9".as_slice()
        || id == b"N1".as_slice()
        || id == b"QTY".as_slice()
        || id == b"SLN".as_slice()
        || id == b"LM".as_slice()
        || id == b"G62".as_slice()
}

/// Whether a segment ends the lines.
pub(crate) fn is_end(id: &[u8]) -> bool {
    id == b"CTT".as_slice() || is_sum(id)
}

/// Whether a segment begins the summary of an invoice, with what follows it up to CTT.
pub(crate) fn is_sum(id: &[u8]) -> bool {
    id == b"TDS".as_slice()
}

/// Whether a segment is one of a hierarchy.
pub(crate) fn is_hl(id: &[u8]) -> bool {
    id == b"HL".as_slice()
}

/// How often a segment or a loop may usually be repeated, if it is repeated at all.
pub(crate) fn usual_most(id: &[u8]) -> usize {
    if id == b"N1".as_slice() {
        5
    } else if id == b"REF".as_slice() {
        12
    } else if id == b"DTM".as_slice() || id == b"PID".as_slice() {
        10
    } else if id == b"MSG".as_slice() {
        100
    } else {
        1
    }
}

/// Whether the first element of a segment says what the others mean, so that its values are codes.
pub(crate) fn is_qualified(id: &[u8]) -> bool {
    id == b"REF".as_slice()
        || id == b"DTM".as_slice()
        || id == b"N1".as_slice()
        || id == b"PER".as_slice()
        || id == b"QTY".as_slice()
        || id == b"N9".as_slice()
        || id == b"MAN".as_slice()
}

/// Whether short values of a segment are names of places, and no codes.
pub(crate) fn is_place(id: &[u8]) -> bool {
    id == b"N4".as_slice()
}
