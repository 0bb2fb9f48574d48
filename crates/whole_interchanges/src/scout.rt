ghost use Rattle.std.specs.Prelude.{◌≡◌, ◌-◌, ◌≤◌, ℕ, List, drop, true, IfOk};
ghost use Rattle.std.specs.List.{All};
ghost use Rattle.x12_bytes.specs.HeaderTest.{is_head};
ghost use Rattle.whole_interchanges.specs.Passing.{AreSearched};
ghost use Rattle.whole_interchanges.specs.Scouting.{Advances, Enters, IsBehind, Stands};

use crate::blocks::{Blocks, list_by, no_blocks};
use crate::following::{OpenPart, Walked, walk};
use crate::passing::not_searched;
use crate::seeking::{Sought, seek};
use hub_kinds::NoMemory;
use std::alloc::Global;
use std::thread::Threads;
use x12_bytes::{Delims, HEADER_LEN, read_header};

/// An interchange that is open: the delimiters that it is read by, and its part that is looked at.
#[derive(Clone, Copy, Debug)]
pub struct Inside {
    /// Its delimiters.
    pub delims: Delims,
    /// Its part.
    pub part: OpenPart,
}

/// Up to where the interchanges are whole in what is read of a text, and the interchange that is open there, if one is.
#[derive(Clone, Copy, Debug)]
pub struct Scout {
    /// Up to here no interchange is open.
    pub at: usize,
    /// The one that begins there.
    pub inside: Option<Inside>,
}

/// How far it came.
#[derive(Clone, Copy, Debug)]
pub struct Advanced {
    /// Where it is.
    pub scout: Scout,
    /// How many interchanges are whole on the way.
    pub count: usize,
}

/// The next interchange.
pub(crate) enum Entered {
    /// It begins at this offset.
    Open(usize, Inside),
    /// None is read from this offset on.
    Wait(usize),
}

/// The interchange whose header begins at an offset, not looked at yet.
fn fresh(read: &[u8], start: usize) -> Entered
    requires { is_head read.now start ≡ true }
    ensures { Enters read.now start result }
{
    match read_header(read, start) {
        Some(header) => {
            let part = OpenPart {
                at: start + HEADER_LEN,
                lead: start + HEADER_LEN,
                seen: start + HEADER_LEN,
            };
            Entered::Open(
                start,
                Inside {
                    delims: header.delims(),
                    part,
                },
            )
        }
        None => Entered::Wait(start),
    }
}

/// The interchange that is open, or else the next one.
fn enter(read: &[u8], scout: Scout) -> Entered
    requires { Stands read.now scout.at scout.inside }
    ensures { Enters read.now scout.at result }
{
    match scout.inside {
        Some(inside) => Entered::Open(scout.at, inside),
        None => match seek(read, scout.at) {
            Sought::Header(start) => fresh(read, start),
            Sought::Wait(at) => Entered::Wait(at),
        },
    }
}

/// Goes on as far as what is read shows, past what threads searched in blocks.
fn advance_over(read: &[u8], scout: Scout, blocks: Blocks<'_>) -> Advanced
    requires stands { Stands read.now scout.at scout.inside }
    requires blocks { All (AreSearched read.now) blocks.list.now }
    ensures { Advances read.now scout.at result }
{
    let mut at = scout.at;
    let mut inside = scout.inside;
    let mut count = 0;
    let mut searched = not_searched();
    loop {
        match enter(read, Scout { at, inside }) {
            Entered::Wait(next) => {
                return Advanced {
                    scout: Scout {
                        at: next,
                        inside: None,
                    },
                    count,
                };
            }
            Entered::Open(start, open) => match walk(
                read,
                open.delims,
                open.part,
                searched,
                blocks,
            ) {
                Walked::End(end, farther) => {
                    at = end;
                    inside = None;
                    count += 1;
                    searched = farther;
                }
                Walked::Wait(part) => {
                    return Advanced {
                        scout: Scout {
                            at: start,
                            inside: Some(Inside {
                                delims: open.delims,
                                part,
                            }),
                        },
                        count,
                    };
                }
            },
        }
    }
}

/// Goes on as far as what is read shows: past each interchange that is whole, and up to the first byte at which a header may still
/// begin.
pub fn advance(read: &[u8], scout: Scout) -> Advanced
    requires { Stands read.now scout.at scout.inside }
    ensures { Advances read.now scout.at result }
{
    advance_over(read, scout, no_blocks())
}

/// Goes on over `read` from `scout` as `advance` does. At most `threads` threads look for the letters of headers and trailers. The only
/// error is out of memory.
pub fn advance_by<R: Threads + Sync>(
    rt: &R,
    alloc: Global,
    read: &[u8],
    scout: Scout,
    threads: u64,
) -> Result<Advanced, NoMemory>
    requires { Stands read.now scout.at scout.inside }
    ensures { IfOk result (Advances read.now scout.at) }
{
    let from = match scout.inside {
        None => scout.at,
        Some(inside) => inside.part.at,
    };
    let list = list_by(rt, alloc, read, from, threads)?;
    let blocks = Blocks {
        from,
        list: list.as_slice(),
    };
    Ok(advance_over(read, scout, blocks))
}

/// The scout after the bytes before its offset are dropped.
pub fn forget(scout: Scout) -> Scout
    requires { IsBehind scout.at scout.inside }
    ensures at { result.at ≡ 0 }
    ensures stands { (read : List ℕ) → Stands read scout.at scout.inside → Stands (drop scout.at read) 0 result.inside }
{
    match scout.inside {
        None => Scout {
            at: 0,
            inside: None,
        },
        Some(inside) => Scout {
            at: 0,
            inside: Some(moved_back(inside, scout.at)),
        },
    }
}

/// An open interchange by offsets that begin so much later.
fn moved_back(inside: Inside, by: usize) -> Inside
    requires at { by ≤ inside.part.at }
    requires lead { by ≤ inside.part.lead }
    requires seen { by ≤ inside.part.seen }
    ensures delims { result.delims ≡ inside.delims }
    ensures at { result.part.at ≡ inside.part.at - by }
    ensures lead { result.part.lead ≡ inside.part.lead - by }
    ensures seen { result.part.seen ≡ inside.part.seen - by }
{
    Inside {
        delims: inside.delims,
        part: OpenPart {
            at: inside.part.at - by,
            lead: inside.part.lead - by,
            seen: inside.part.seen - by,
        },
    }
}
