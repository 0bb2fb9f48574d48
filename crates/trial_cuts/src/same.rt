use env_index::{GroupEnvelope, Index, Interchange, SetEnvelope};
use x12_segs::SegView;

fn is_same_segment(a: &SegView<'_>, b: &SegView<'_>) -> bool {
    a.start() == b.start() && a.bytes() == b.bytes()
}

fn is_same_trailer(a: &Option<SegView<'_>>, b: &Option<SegView<'_>>) -> bool {
    match (a, b) {
        (Some(a), Some(b)) => is_same_segment(a, b),
        (None, None) => true,
        _ => false,
    }
}

fn is_same_set(a: &SetEnvelope<'_>, b: &SetEnvelope<'_>) -> bool {
    a.segments == b.segments
        && a.end == b.end
        && is_same_segment(&a.header, &b.header)
        && is_same_trailer(&a.trailer, &b.trailer)
}

fn is_same_group(a: &GroupEnvelope<'_, '_>, b: &GroupEnvelope<'_, '_>) -> bool {
    if a.set_count() != b.set_count() {
        return false;
    }
    for k in 0..a.set_count() {
        if k < b.set_count() && !is_same_set(&a.set(k), &b.set(k)) {
            return false;
        }
    }
    is_same_segment(&a.header(), &b.header()) && is_same_trailer(&a.trailer(), &b.trailer())
}

fn is_same_interchange(a: &Interchange<'_>, b: &Interchange<'_>) -> bool {
    if a.group_count() != b.group_count() {
        return false;
    }
    for k in 0..a.group_count() {
        if k < b.group_count() && !is_same_group(&a.group(k), &b.group(k)) {
            return false;
        }
    }
    a.start() == b.start()
        && a.end() == b.end()
        && a.ta1s() == b.ta1s()
        && a.is_misplaced() == b.is_misplaced()
        && is_same_trailer(&a.trailer(), &b.trailer())
}

/// Whether two indexes are equal: their interchanges, with all places and faults, and the count of bytes outside.
pub fn is_same_index(a: &Index<'_>, b: &Index<'_>) -> bool {
    let xs = a.interchanges();
    let ys = b.interchanges();
    if xs.len() != ys.len() || a.outside() != b.outside() {
        return false;
    }
    for (x, y) in xs.iter().zip(ys) {
        if x.fault() != y.fault() || !is_same_interchange(x.interchange(), y.interchange()) {
            return false;
        }
    }
    true
}
