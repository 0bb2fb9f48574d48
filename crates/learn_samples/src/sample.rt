use env_index::{GroupEnvelope, Interchange, SetEnvelope, index_plain};
use hub_kinds::{InterchangeFault, NoMemory, within_limit};
use std::alloc::Global;
use x12_bytes::Delims;
use x12_segs::{SegView, segments};

/// A set of a sample file.
#[derive(Drop)]
pub struct Sample<'a> {
    /// The number of its file, from 0.
    pub file: usize,
    /// Its number among the sets of its file, from 1; sets of interchanges that are left out aren't counted.
    pub number: usize,
    /// GS.
    pub group: SegView<'a>,
    /// ST.
    pub header: SegView<'a>,
    /// The segments between ST and SE.
    pub body: Vec<SegView<'a>>,
}

/// An interchange of a sample file that has one of the faults 1 to 7: its sets are left out.
#[derive(Drop)]
pub struct LeftOut {
    /// The number of its file, from 0.
    pub file: usize,
    /// Its number among the interchanges of its file, from 1.
    pub number: usize,
    /// Its least fault.
    pub fault: InterchangeFault,
}

/// The sets of sample files, in their order, and the interchanges that are left out.
#[derive(Drop)]
pub struct Samples<'a> {
    pub sets: Vec<Sample<'a>>,
    pub left_out: Vec<LeftOut>,
}

impl<'a> Samples<'a> {
    /// No sets.
    pub fn new(alloc: Global) -> Samples<'a> {
        Samples {
            sets: Vec::new(alloc),
            left_out: Vec::new(alloc),
        }
    }
}

/// Adds the sets of a text to `samples`, the text being that of the file with a number, from 0. Gives whether the text has an interchange;
/// one over 4,294,967,295 bytes isn't read. The only error is out of memory.
pub fn add_sets<'a>(
    alloc: Global,
    samples: &mut Samples<'a>,
    text: &'a [u8],
    file: usize,
) -> Result<bool, NoMemory> {
    if !within_limit(text.len() as u64) {
        return Ok(false);
    }
    let index = index_plain(alloc, text)?;
    let mut number: usize = 0;
    let mut sets = 0;
    for entry in index.interchanges() {
        number = number.saturating_add(1);
        match entry.fault() {
            None => {
                sets = add_interchange(alloc, samples, text, file, entry.interchange(), sets)?
            }
            Some(fault) => samples.left_out.push(LeftOut {
                file,
                number,
                fault,
            })?,
        }
    }
    Ok(number > 0)
}

/// Adds the sets of an interchange after that many of its file, and gives how many these are then.
fn add_interchange<'a>(
    alloc: Global,
    samples: &mut Samples<'a>,
    text: &'a [u8],
    file: usize,
    interchange: &Interchange<'a>,
    before: usize,
) -> Result<usize, NoMemory> {
    let delims = interchange.header().delims();
    let mut sets = before;
    for k in 0..interchange.group_count() {
        sets = add_group(
            alloc,
            samples,
            text,
            file,
            &interchange.group(k),
            delims,
            sets,
        )?;
    }
    Ok(sets)
}

fn add_group<'a>(
    alloc: Global,
    samples: &mut Samples<'a>,
    text: &'a [u8],
    file: usize,
    group: &GroupEnvelope<'_, 'a>,
    delims: Delims,
    before: usize,
) -> Result<usize, NoMemory> {
    let mut number: usize = before;
    for k in 0..group.set_count() {
        number = number.saturating_add(1);
        let set = group.set(k);
        let body = body_of(alloc, text, &set, delims)?;
        samples.sets.push(Sample {
            file,
            number,
            group: group.header(),
            header: set.header,
            body,
        })?;
    }
    Ok(number)
}

/// The segments of a set between its ST and its SE.
fn body_of<'a>(
    alloc: Global,
    text: &'a [u8],
    set: &SetEnvelope<'a>,
    delims: Delims,
) -> Result<Vec<SegView<'a>>, NoMemory> {
    let mut body = Vec::new(alloc);
    let Some(part) = text.get(set.header.start()..set.end) else {
        return Ok(body);
    };
    for segment in segments(part, delims).skip(1) {
        body.push(segment)?;
    }
    if set.trailer.is_some() {
        let _trailer = body.pop();
    }
    Ok(body)
}
