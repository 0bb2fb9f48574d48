ghost use Rattle.std.specs.Prelude.{◌≡◌, ◌+◌, ◌-◌, ◌≤◌, ◌<◌, ◌++◌, ℕ, List, take, Option, IfErr, IfOk, IfSome, IsErrOf, OnOk, false};
ghost use Rattle.std.specs.Prelude.{length, true};
ghost use Rattle.std.specs.Io.KnownBytes.{Appends, IsAtEnd};
ghost use Rattle.hub_kinds.specs.declared.limits.TheConstants.{LONGEST_TEXT};
ghost use Rattle.stream_read.specs.Source.{HasFailed};
ghost use Rattle.x12_bytes.specs.Bytes.{is_line_end};
ghost use Rattle.std.specs.List.{suffix_len};
ghost use Rattle.gather_files.specs.Gathering.{is_end, IsBegun, IsGathered, IsLed, IsOfWriting, IsPassed, IsTakenByLayers};
ghost use Rattle.x12_bytes.specs.Header.{header_at, terminator_of};
ghost use Rattle.x12_bytes.specs.HeaderTest.{is_head};
ghost use Rattle.gather_files.specs.declared.fault.GatherFault.TheVariants.{Output, Read, TooLong};

use crate::cause::{Cause, cause_of};
use crate::closing::close;
use crate::fault::GatherFault;
use crate::lead::{is_padding, skip_blanks, unpadded};
use std::alloc::Global;
use std::io::Write;
use stream_read::{Held, Source};
use whole_interchanges::{Advanced, Scout, advance, forget};
use x12_bytes::{HEADER_LEN, read_header};

/// What became of a file.
#[derive(Clone, Copy, Debug, PartialEq, Eq)]
pub enum Gathered {
    /// It goes in.
    Taken(Taken),
    /// It doesn't, and nothing of it is written.
    SetAside(Cause),
}

/// How a file goes in.
#[derive(Clone, Copy, Debug, PartialEq, Eq)]
pub struct Taken {
    /// How many interchanges it has.
    pub interchanges: u64,
    /// How many bytes are written.
    pub len: u64,
    /// How it ends.
    pub end: End,
}

/// How a file ends.
#[derive(Clone, Copy, Debug, PartialEq, Eq)]
pub enum End {
    /// No interchange is open at its end.
    Whole,
    /// The terminator of its last interchange was missing, and is put there.
    Mended,
    /// It was cut off in its last interchange, which has no end: the night refuses that.
    CutOff,
    /// Its last interchange has no end, since its IEA is written with another separator than its ISA names: the night refuses that.
    OtherSeparator(Separators),
    /// It was cut off in what may begin a header.
    CutInHeader,
}

/// The element separator that an ISA names, and the byte that its IEA has in its place.
#[derive(Clone, Copy, Debug, PartialEq, Eq)]
pub struct Separators {
    pub named: u8,
    pub written: u8,
}

/// Puts a file after what was gathered so far: read window by window, from its first header on, closed at its end. Held of it are a
/// window and the interchange that is open. X12.5, interchange; that files are gathered is own.
///
/// Errors: a file of more than 4,294,967,295 bytes, a read or a write that fails, out of memory. Then some of the file may be written.
pub fn gather_file<S: Source, W: Write>(
    alloc: Global,
    file: &mut S,
    out: &mut W,
    window: usize,
) -> Result<Gathered, GatherFault>
    requires { 0 < window }
    ensures gathered { IfOk result (IsGathered (S.remaining file.old) (W.contents out.old) (W.contents out.new)) }
    ensures read { IsErrOf result Read → HasFailed (S.faults file.old) (S.faults file.new) (S.interruptions file.new) }
    ensures long { IsErrOf result TooLong → IfSome (S.remaining file.old) (λ xs. LONGEST_TEXT < length xs) }
{
    let held = begin(alloc, file, window)?;
    if read_header(held.bytes(), 0).is_none() {
        return Ok(Gathered::SetAside(cause_of(held.bytes())));
    }
    let taken = pass_all(alloc, held, file, out, window)?;
    Ok(Gathered::Taken(taken))
}

/// Writes a file of which the first bytes are held, window by window, and closes it.
fn pass_all<S: Source, W: Write>(
    alloc: Global,
    held: Held,
    file: &mut S,
    out: &mut W,
    window: usize,
) -> Result<Taken, GatherFault>
    requires window { 0 < window }
    requires few { held.total ≤ LONGEST_TEXT }
    requires begun { (first : Option (List ℕ)) × IsBegun first (S.remaining file.old) held }
    requires header { is_head held.bytes 0 ≡ true }
    ensures taken { IfOk result (λ taken. (first : Option (List ℕ)) → IsBegun first (S.remaining file.old) held
        → IsTakenByLayers first (W.contents out.old) (W.contents out.new) taken) }
    ensures read { IsErrOf result Read → HasFailed (S.faults file.old) (S.faults file.new) (S.interruptions file.new) }
    ensures long { IsErrOf result TooLong → (first : Option (List ℕ)) → IsBegun first (S.remaining file.old) held
        → IfSome first (λ xs. LONGEST_TEXT < length xs) }
{
    let mut held = held;
    let mut passing = Passing {
        terminator: first_terminator(held.bytes()),
        scout: Scout {
            at: 0,
            inside: None,
        },
        interchanges: 0,
        written: 0,
        seen: 0,
        ends: 0,
    };
    while held.fill(file, window)? {
        passing = pass_on(&mut held, passing, out)?;
    }
    finish(alloc, &held, passing, out)
}

/// Reads up to the first header of a file, without the blanks before it.
fn begin<S: Source>(alloc: Global, file: &mut S, window: usize) -> Result<Held, GatherFault>
    requires { 0 < window }
    ensures begun { IfOk result (λ held. IsBegun (S.remaining file.old) (S.remaining file.new) held) }
    ensures few { IfOk result (λ held. held.total ≤ LONGEST_TEXT) }
    ensures read { IsErrOf result Read → HasFailed (S.faults file.old) (S.faults file.new) (S.interruptions file.new) }
    ensures rested { (IsErrOf result Read → ⊥) → S.faults file.new ≡ S.faults file.old }
    ensures long { IsErrOf result TooLong → IfSome (S.remaining file.old) (λ xs. LONGEST_TEXT < length xs) }
{
    let mut held = Held::new(alloc);
    let mut more = true;
    while more && held.bytes().len() < HEADER_LEN {
        more = read_led(&mut held, file, window)?;
    }
    Ok(held)
}

/// Reads a window more, or what is left, without the blanks before the first header. Answers whether it was a whole one.
fn read_led<S: Source>(held: &mut Held, file: &mut S, window: usize) -> Result<bool, GatherFault>
    requires { 0 < window }
    ensures led { IfOk result (λ full. (first : Option (List ℕ)) → IsLed first (S.remaining file.old) held.old
        → IsLed first (S.remaining file.new) held.new) }
    ensures end { IfOk result (λ full. full ≡ false → IsAtEnd (S.remaining file.new)) }
    ensures more { IfOk result (λ full. full ≡ true → held.old.total < held.new.total) }
    ensures grows { OnOk result (held.old.total ≤ held.new.total) }
    ensures few { OnOk result (held.new.total ≤ LONGEST_TEXT) }
    ensures read { IsErrOf result Read → HasFailed (S.faults file.old) (S.faults file.new) (S.interruptions file.new) }
    ensures rested { (IsErrOf result Read → ⊥) → S.faults file.new ≡ S.faults file.old }
    ensures long { IsErrOf result TooLong → IfSome (S.remaining file.old) (λ xs. LONGEST_TEXT < held.old.total + length xs) }
{
    let full = held.fill(file, window)?;
    skip_blanks(held);
    Ok(full)
}

/// The terminator that the header at the front of these bytes names.
fn first_terminator(bytes: &[u8]) -> u8
    requires { is_head bytes.now 0 ≡ true }
    ensures { result ≡ terminator_of (header_at bytes.now 0) }
{
    bytes[HEADER_LEN - 1]
}

/// How far a file is passed on.
#[derive(Clone, Copy, Debug)]
pub(crate) struct Passing {
    /// The terminator of its first interchange.
    pub(crate) terminator: u8,
    /// The interchange that is open at the front of what is held, as far as it is followed.
    pub(crate) scout: Scout,
    /// How many interchanges are written.
    pub(crate) interchanges: u64,
    /// How many bytes are written.
    pub(crate) written: u64,
    /// How many bytes of what is held were looked at, at whose end this many are CR, LF and padding alone.
    pub(crate) seen: usize,
    pub(crate) ends: usize,
}

/// Writes the interchanges that are whole in what is held, and gives their bytes up. CR, LF and padding at the end of what is held aren't
/// looked at, since a terminator may have to take their place, or the file may end with them.
fn pass_on<W: Write>(held: &mut Held, passing: Passing, out: &mut W) -> Result<Passing, GatherFault>
    requires passed { (first now was is : Option (List ℕ)) × IsPassed first now was is held.old passing }
    requires few { held.old.total ≤ LONGEST_TEXT }
    ensures passed { IfOk result (λ new. (first now was : Option (List ℕ))
        → IsPassed first now was (W.contents out.old) held.old passing → IsPassed first now was (W.contents out.new) held.new new) }
    ensures total { OnOk result (held.new.total ≡ held.old.total) }
    ensures err { IfErr result IsOfWriting }
{
    let ends = ends_of(held.bytes(), passing.seen, passing.ends);
    let kept = held.bytes().len() - ends;
    let Advanced {
        scout: ahead,
        count,
    } = advance(&held.bytes()[..kept], passing.scout);
    put(out, &held.bytes()[..ahead.at])?;
    held.give_up(ahead.at);
    Ok(Passing {
        terminator: passing.terminator,
        scout: forget(ahead),
        interchanges: passing.interchanges + count as u64,
        written: passing.written + ahead.at as u64,
        seen: held.bytes().len(),
        ends,
    })
}

/// Writes `bytes` to `out`. Its only error is that of the output.
fn put<W: Write>(out: &mut W, bytes: &[u8]) -> Result<(), GatherFault>
    ensures written { OnOk result (Appends (W.contents out.old) (W.contents out.new) bytes.now) }
    ensures failed { IfErr result (λ fault. fault ≡ Output) }
{
    match out.write_all(bytes) {
        Ok(()) => Ok(()),
        Err(_) => Err(GatherFault::Output),
    }
}

/// How many bytes at the end are CR, LF and padding, where this many bytes were looked at before, at whose end this many were such. Each
/// byte is looked at once.
fn ends_of(held: &[u8], seen: usize, ends: usize) -> usize
    requires seen { seen ≤ length held.now }
    requires ends { ends ≤ seen }
    ensures within { result ≤ length held.now }
    ensures grows { seen - ends ≤ length held.now - result }
    ensures ends { (before : List ℕ) → suffix_len is_end (before ++ take seen held.now) ≡ ends
        → suffix_len is_end (before ++ held.now) ≡ result }
{
    let more = count_ends(&held[seen..]);
    if more == held.len() - seen {
        ends + more
    } else {
        more
    }
}

/// How many bytes at the end are CR, LF and padding.
fn count_ends(bytes: &[u8]) -> usize
    ensures count { result ≡ suffix_len is_end bytes.now }
    ensures within { result ≤ length bytes.now }
{
    bytes.iter().rev().take_while(|b| is_end(**b)).count()
}

fn is_end(byte: u8) -> bool
    ensures { result ≡ is_end byte }
{
    byte == b'\r' || byte == b'\n' || is_padding(byte)
}

/// How many CR and LF are at the end.
fn count_line_ends(bytes: &[u8]) -> usize
    ensures count { result ≡ suffix_len is_line_end bytes.now }
    ensures within { result ≤ length bytes.now }
{
    bytes
        .iter()
        .rev()
        .take_while(|b| **b == b'\r' || **b == b'\n')
        .count()
}

/// Closes what is held of a file, and writes it.
fn finish<W: Write>(
    alloc: Global,
    held: &Held,
    passing: Passing,
    out: &mut W,
) -> Result<Taken, GatherFault>
    requires passed { (first now was is : Option (List ℕ)) × IsPassed first now was is held.now passing }
    requires few { held.now.total ≤ LONGEST_TEXT }
    ensures taken { IfOk result (λ taken. (first now was : Option (List ℕ))
        → IsPassed first now was (W.contents out.old) held.now passing → IsAtEnd now
        → IsTakenByLayers first was (W.contents out.new) taken) }
    ensures err { IfErr result IsOfWriting }
{
    let body = unpadded(held.bytes(), passing.terminator);
    let closed = close(alloc, body, body.len() - count_line_ends(body))?;
    let bytes = closed.bytes.as_slice();
    put(out, bytes)?;
    Ok(Taken {
        interchanges: passing.interchanges + closed.interchanges,
        len: passing.written + bytes.len() as u64,
        end: closed.end,
    })
}
