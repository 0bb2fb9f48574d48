//! Where each segment of a set belongs: under the set, or under the loop that is open.
use crate::cause::Trouble;
use crate::heads::{NO_LINES, is_end, is_hl, is_inner, is_sum, line_rank};
use crate::tree::{Key, Step, Tree};
use hub_kinds::{NoMemory, is_segment_id};
use itoa::Buffer;
use learn_samples::Sample;
use std::alloc::Global;
use x12_segs::SegView;

/// How deep loops may be nested in a guide.
const MOST_NESTED: usize = 8;

/// A loop that is open, or the set.
#[derive(Clone, Copy)]
struct Open<'a> {
    place: usize,
    /// The number of this use.
    number: usize,
    /// The place under it that was used last.
    last: Option<usize>,
    /// Whether it is a loop inside a line, or before the lines.
    is_inner: bool,
    /// HL01 and HL03 of its first segment.
    hl: &'a [u8],
    level: &'a [u8],
}

/// A walk over a set.
#[derive(Drop)]
struct Walk<'a> {
    sample: usize,
    /// The rank of the segments that begin its lines.
    rank: usize,
    /// The position after the last of these.
    lines_end: usize,
    zone: u8,
    hls: usize,
    open: Vec<Open<'a>>,
}

/// The least rank of a line in all sets.
pub(crate) fn rank_of(samples: &[Sample]) -> usize {
    let mut rank = NO_LINES;
    for sample in samples {
        for segment in sample.body.as_slice() {
            rank = rank.min(line_rank(segment.id()));
        }
    }
    rank
}

/// The position after the last segment that begins a line.
fn lines_end(body: &[SegView], rank: usize) -> usize {
    let mut end = 0;
    for k in 0..body.len() {
        if rank < NO_LINES && line_rank(body[k].id()) == rank {
            end = k + 1;
        }
    }
    end
}

/// Adds the segments of a set to the tree, up to the first trouble.
pub(crate) fn walk_set<'a>(
    alloc: Global,
    tree: &mut Tree<'a>,
    sample: &Sample<'a>,
    number: usize,
    rank: usize,
) -> Result<(), NoMemory> {
    let mut walk = Walk {
        sample: number,
        rank,
        lines_end: lines_end(sample.body.as_slice(), rank),
        zone: 0,
        hls: 0,
        open: Vec::new(alloc),
    };
    open_place(tree, &mut walk, 0, false, b"", b"")?;
    let body = sample.body.as_slice();
    for k in 0..body.len() {
        if tree.trouble.is_none() {
            add_segment(alloc, tree, &mut walk, &body[k], k)?;
        }
    }
    Ok(())
}

/// Whether a guide can have a segment with this id.
fn is_usable(id: &[u8]) -> bool {
    is_segment_id(id)
        && id != b"ISA".as_slice()
        && id != b"IEA".as_slice()
        && id != b"GS".as_slice()
        && id != b"GE".as_slice()
        && id != b"ST".as_slice()
        && id != b"SE".as_slice()
}

/// Adds a segment with a position in the body, from 0.
fn add_segment<'a>(
    alloc: Global,
    tree: &mut Tree<'a>,
    walk: &mut Walk<'a>,
    segment: &SegView<'a>,
    position: usize,
) -> Result<(), NoMemory> {
    let id = segment.id();
    let sample = walk.sample;
    if !is_usable(id) {
        tree.note(Trouble::Id { id, sample });
        return Ok(());
    }
    if walk.rank < NO_LINES && line_rank(id) == walk.rank {
        return begin_line(alloc, tree, walk, segment);
    }
    if walk.rank < NO_LINES && position >= walk.lines_end && is_end(id) {
        walk.zone = 2;
        walk.open.truncate(1);
        if is_sum(id) {
            return begin_loop(alloc, tree, walk, segment, false);
        }
    } else if is_inner(id) {
        close_inner(&mut walk.open);
        return begin_loop(alloc, tree, walk, segment, true);
    }
    use_segment(alloc, tree, walk, segment)
}

/// Closes a loop inside a line.
fn close_inner(open: &mut Vec<Open>) {
    if let Some(last) = open.last()
        && last.is_inner
    {
        let _closed = open.pop();
    }
}

/// Begins a line.
fn begin_line<'a>(
    alloc: Global,
    tree: &mut Tree<'a>,
    walk: &mut Walk<'a>,
    segment: &SegView<'a>,
) -> Result<(), NoMemory> {
    walk.zone = 1;
    if is_hl(segment.id()) {
        return begin_level(alloc, tree, walk, segment);
    }
    walk.open.truncate(1);
    begin_loop(alloc, tree, walk, segment, false)
}

/// Begins a loop of the place that is open, and adds its first segment.
fn begin_loop<'a>(
    alloc: Global,
    tree: &mut Tree<'a>,
    walk: &mut Walk<'a>,
    segment: &SegView<'a>,
    is_inner: bool,
) -> Result<(), NoMemory> {
    let key = Key {
        is_loop: true,
        id: segment.id(),
        level: b"",
        zone: walk.zone,
    };
    let is_line = !is_inner && walk.zone == 1;
    if let Some(place) = use_place(alloc, tree, walk, key, is_line)? {
        open_place(tree, walk, place, is_inner, b"", b"")?;
    }
    use_segment(alloc, tree, walk, segment)
}

/// Whether a guide can name a level.
fn is_level(level: &[u8]) -> bool {
    1 <= level.len() && level.len() <= 2 && level.iter().all(|byte| byte.is_ascii_alphanumeric())
}

/// Closes what is inside the parent of an HL; false if the parent isn't open.
fn close_to_parent(open: &mut Vec<Open>, parent: &[u8]) -> bool {
    if parent.is_empty() {
        open.truncate(1);
        return true;
    }
    for back in 0..open.len() {
        let k = open.len() - 1 - back;
        if k > 0 && !open[k].is_inner && open[k].hl == parent {
            open.truncate(k + 1);
            return true;
        }
    }
    false
}

/// Notes a level under that of its parent, which is open.
fn add_pair(alloc: Global, tree: &mut Tree, open: &[Open], level: &[u8]) -> Result<(), NoMemory> {
    let mut pair = Vec::new(alloc);
    if let Some(parent) = open.last() {
        pair.extend_from_slice(parent.level)?;
    }
    pair.push(b'/')?;
    pair.extend_from_slice(level)?;
    let _new = tree.pairs.insert(pair)?;
    Ok(())
}

/// Begins the loop of an HL under that of its parent (X12, HL01 to HL03).
fn begin_level<'a>(
    alloc: Global,
    tree: &mut Tree<'a>,
    walk: &mut Walk<'a>,
    segment: &SegView<'a>,
) -> Result<(), NoMemory> {
    let (hl, parent, level) = segment.first_elements();
    let sample = walk.sample;
    if !is_level(level) {
        tree.note(Trouble::Level { level, sample });
        return Ok(());
    }
    if !close_to_parent(&mut walk.open, parent) {
        tree.note(Trouble::Parent { number: hl, sample });
        return Ok(());
    }
    walk.hls = walk.hls.saturating_add(1);
    let mut digits = Buffer::new();
    tree.sequential = tree.sequential && digits.format(walk.hls).as_bytes() == hl;
    add_pair(alloc, tree, walk.open.as_slice(), level)?;
    let key = Key {
        is_loop: true,
        id: segment.id(),
        level,
        zone: walk.zone,
    };
    if let Some(place) = use_place(alloc, tree, walk, key, true)? {
        open_place(tree, walk, place, false, hl, level)?;
    }
    use_segment(alloc, tree, walk, segment)
}

/// Begins a use of a loop, or of the set.
fn open_place<'a>(
    tree: &mut Tree<'a>,
    walk: &mut Walk<'a>,
    place: usize,
    is_inner: bool,
    hl: &'a [u8],
    level: &'a [u8],
) -> Result<(), NoMemory> {
    tree.uses = tree.uses.saturating_add(1);
    if let Some(found) = tree.places.get_mut(place) {
        found.times = found.times.saturating_add(1);
    }
    if walk.open.len() > MOST_NESTED {
        let sample = walk.sample;
        tree.note(Trouble::Deep { sample });
    }
    walk.open.push(Open {
        place,
        number: tree.uses,
        last: None,
        is_inner,
        hl,
        level,
    })?;
    Ok(())
}

/// Adds a segment to the place that is open.
fn use_segment<'a>(
    alloc: Global,
    tree: &mut Tree<'a>,
    walk: &mut Walk<'a>,
    segment: &SegView<'a>,
) -> Result<(), NoMemory> {
    let key = Key {
        is_loop: false,
        id: segment.id(),
        level: b"",
        zone: if walk.open.len() > 1 { 0 } else { walk.zone },
    };
    let Some(place) = use_place(alloc, tree, walk, key, false)? else {
        return Ok(());
    };
    if let Some(found) = tree.places.get_mut(place) {
        found.segments.push(SegView::new(segment.start(), segment.bytes(), segment.delims()))?;
    }
    Ok(())
}

/// Counts a use of the place with a key under what is open, and gives its number.
fn use_place<'a>(
    alloc: Global,
    tree: &mut Tree<'a>,
    walk: &mut Walk<'a>,
    key: Key<'a>,
    is_line: bool,
) -> Result<Option<usize>, NoMemory> {
    let Some(open) = walk.open.last() else {
        return Ok(None);
    };
    let (parent, use_number, last) = (open.place, open.number, open.last);
    let child = tree.child(alloc, parent, key)?;
    let mut is_new = false;
    if let Some(place) = tree.places.get_mut(child) {
        is_new = place.last_use != use_number;
        if is_new {
            place.last_use = use_number;
            place.now = 0;
            place.uses = place.uses.saturating_add(1);
        }
        place.now = place.now.saturating_add(1);
        place.most = place.most.max(place.now);
        place.is_line = is_line;
    }
    if is_new {
        add_step(tree, last, child, walk.sample)?;
        if let Some(open) = walk.open.last_mut() {
            open.last = Some(child);
        }
    } else if last != Some(child) {
        note_again(tree, last, key.id, walk.sample);
    }
    Ok(Some(child))
}

/// Notes that a set has one place directly before another.
fn add_step(
    tree: &mut Tree,
    from: Option<usize>,
    to: usize,
    sample: usize,
) -> Result<(), NoMemory> {
    let Some(from) = from else {
        return Ok(());
    };
    if let Some(place) = tree.places.get_mut(from) {
        place.steps.push(Step { to, sample })?;
    }
    if let Some(place) = tree.places.get_mut(to) {
        place.waits = place.waits.saturating_add(1);
    }
    Ok(())
}

/// Notes that a segment or loop is there again after another one.
fn note_again<'a>(tree: &mut Tree<'a>, last: Option<usize>, id: &'a [u8], sample: usize) {
    let mut after: &'a [u8] = b"";
    if let Some(last) = last
        && let Some(place) = tree.places.get(last)
    {
        after = place.key.id;
    }
    tree.note(Trouble::Again { id, after, sample });
}
