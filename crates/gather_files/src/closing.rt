ghost use Rattle.std.specs.Prelude.{◌≡◌, ◌≢◌, ◌≤◌, ℕ, IfOk, List, Some, true, length, take};
ghost use Rattle.x12_bytes.specs.Bytes.{is_line_end};
ghost use Rattle.whole_interchanges.specs.Scouting.{Advances};
ghost use Rattle.gather_files.specs.Gathered.{HoldsInterchanges};
ghost use Rattle.gather_files.specs.Closing.{IsClosedBy, IsClosedSo, IsLastSegment, StaysApart};
ghost use Rattle.gather_files.specs.EndsByLayers.{EndsByLayers, EndsInHeaderByLayers};

use crate::gather::End;
use crate::trailer::open_end;
use hub_kinds::NoMemory;
use memchr::memchr;
use std::alloc::Global;
use whole_interchanges::{Advanced, Scout, advance, may_begin};
use x12_bytes::read_header;

/// How many bytes are put after a file at most: sixteen spaces, before which no header can turn out to begin, and a terminator.
pub const MOST_BEHIND: usize = 17;

/// What is held of a file at its end, as it goes in.
#[derive(Debug, Drop)]
pub(crate) struct Closed {
    /// Its bytes.
    pub(crate) bytes: Vec<u8>,
    /// How many of them were put after it.
    pub(crate) count: usize,
    /// How many interchanges they are.
    pub(crate) interchanges: u64,
    /// How it ends.
    pub(crate) end: End,
}

/// The interchange that is open at the end of a file.
#[derive(Clone, Copy, Debug)]
pub(crate) struct OpenInterchange {
    /// Its terminator.
    pub(crate) terminator: u8,
    /// Which one it is, counted from 1.
    pub(crate) number: u64,
}

/// Closes what is held of a file, of which CR and LF alone are after this many bytes: where a segment is open, its terminator is in
/// their place.
pub(crate) fn close(alloc: Global, held: &[u8], kept: usize) -> Result<Closed, NoMemory>
    requires { kept ≤ length held.now }
    ensures closed { IfOk result (IsClosedSo held.now (take kept held.now)) }
    ensures apart { IfOk result (StaysApart held.now) }
{
    let Advanced { scout, count } = from_the_front(held);
    match scout.inside {
        None if scout.at == held.len() => as_it_is(alloc, held, End::Whole, count as u64),
        None => cut_in_header(alloc, held),
        Some(inside) if inside.part.lead == held.len() => {
            let end = open_end(&held[scout.at..], inside.delims);
            as_it_is(alloc, held, end, count as u64 + 1)
        }
        Some(_) => match last_open(&held[..kept]) {
            Some(last) => terminated(alloc, &held[..kept], last),
            None => spaced(alloc, held),
        },
    }
}

fn as_it_is(alloc: Global, held: &[u8], end: End, interchanges: u64) -> Result<Closed, NoMemory>
    requires holds { HoldsInterchanges held.now interchanges }
    requires few { interchanges ≤ length held.now }
    requires ends { EndsByLayers held.now held.now 0 end }
    ensures closed { IfOk result (λ c. (kept : List ℕ) → IsClosedSo held.now kept c) }
    ensures untouched { IfOk result (λ c. c.count ≡ 0) }
    ensures told { IfOk result (λ c. c.end ≡ end) }
{
    let bytes = Vec::from_slice(alloc, held)?;
    Ok(Closed {
        bytes,
        count: 0,
        interchanges,
        end,
    })
}

/// The interchange that is open at the end of a file, where its terminator alone closes the file.
fn last_open(file: &[u8]) -> Option<OpenInterchange>
    ensures { (last : OpenInterchange) → result ≡ Some last → IsClosedBy file.now last }
{
    let Advanced { scout, count } = from_the_front(file);
    match scout.inside {
        Some(inside) if is_last_segment(file, inside.delims.terminator, inside.part.lead) => Some(
            OpenInterchange {
                terminator: inside.delims.terminator,
                number: count as u64 + 1,
            },
        ),
        _ => None,
    }
}

/// Whether from an offset to the end of a file there is one segment, without its terminator, at which no header can turn out to begin.
fn is_last_segment(file: &[u8], terminator: u8, lead: usize) -> bool
    ensures { result ≡ true → IsLastSegment file.now terminator lead }
{
    lead < file.len()
        && !is_line_end(file[lead])
        && memchr(terminator, &file[lead..]).is_none()
        && read_header(file, lead).is_none()
        && !may_begin(file, lead)
}

fn is_line_end(byte: u8) -> bool
    ensures { result ≡ is_line_end byte }
{
    byte == b'\r' || byte == b'\n'
}

/// How far the interchanges of a file are whole, from its first byte on.
fn from_the_front(file: &[u8]) -> Advanced
    ensures { Advances file.now 0 result }
{
    let start = Scout {
        at: 0,
        inside: None,
    };
    advance(file, start)
}

/// A file with the terminator of its open interchange after it.
fn terminated(alloc: Global, file: &[u8], last: OpenInterchange) -> Result<Closed, NoMemory>
    requires { IsClosedBy file.now last }
    ensures { IfOk result (λ c. (held : List ℕ) → IsClosedSo held file.now c) }
{
    let mut bytes = Vec::from_slice(alloc, file)?;
    bytes.push(last.terminator)?;
    let end = end_after(bytes.as_slice());
    Ok(Closed {
        bytes,
        count: 1,
        interchanges: last.number,
        end,
    })
}

/// How a file ends after which something was put.
fn end_after(bytes: &[u8]) -> End
    ensures ends { (file : List ℕ) (count : ℕ) → 1 ≤ count → EndsByLayers file bytes.now count result }
    ensures put { result ≢ End.Whole }
{
    let advanced = from_the_front(bytes);
    match advanced.scout.inside {
        Some(inside) => open_end(&bytes[advanced.scout.at..], inside.delims),
        None if advanced.scout.at == bytes.len() => End::Mended,
        None => End::CutInHeader,
    }
}

/// A file at whose end a header may begin, with what keeps it from beginning there.
fn cut_in_header(alloc: Global, file: &[u8]) -> Result<Closed, NoMemory>
    requires { EndsInHeaderByLayers file.now }
    ensures { IfOk result (λ c. (kept : List ℕ) → IsClosedSo file.now kept c) }
{
    let closed = spaced(alloc, file)?;
    Ok(Closed {
        bytes: closed.bytes,
        count: closed.count,
        interchanges: closed.interchanges,
        end: End::CutInHeader,
    })
}

/// A file with sixteen spaces after it, and after them the terminator of its interchange, if one is open.
fn spaced(alloc: Global, file: &[u8]) -> Result<Closed, NoMemory>
    ensures { IfOk result (λ c. (kept : List ℕ) → IsClosedSo file.now kept c) }
{
    let mut bytes = Vec::from_slice(alloc, file)?;
    bytes.extend_from_slice(b"                ")?;
    let Advanced { scout, count } = from_the_front(bytes.as_slice());
    match scout.inside {
        None => {
            let end = end_after(bytes.as_slice());
            Ok(Closed {
                bytes,
                count: 16,
                interchanges: count as u64,
                end,
            })
        }
        Some(inside) => {
            bytes.push(inside.delims.terminator)?;
            let end = end_after(bytes.as_slice());
            Ok(Closed {
                bytes,
                count: 17,
                interchanges: count as u64 + 1,
                end,
            })
        }
    }
}
