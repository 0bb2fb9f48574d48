ghost use Rattle.std.specs.Prelude.{◌≡◌, ◌≤◌, ◌<◌, ◌+◌, ◌==◌, ◌&&◌, not, false, drop, length, slice_index, if◌then◌else◌};
ghost use Rattle.whole_interchanges.specs.declared.following.Step.TheVariants.{End, On};
ghost use Rattle.std.specs.List.{All, prefix_len};
ghost use Rattle.x12_bytes.specs.Bytes.{is_line_end};
ghost use Rattle.x12_segs.specs.Words.{seg_at, view_of, kind_of};
ghost use Rattle.env_index.specs.Words.{ends_interchange};
ghost use Rattle.whole_interchanges.specs.Open.{IsOpen};
ghost use Rattle.whole_interchanges.specs.Passing.{AreSearched};
ghost use Rattle.whole_interchanges.specs.Steps.{Steps, Walks};

use crate::begin::may_begin;
use crate::blocks::{Blocks, search};
use crate::passing::{Searched, pass_over};
use memchr::memchr;
use x12_bytes::{Delims, read_header};
use x12_segs::{Kind, SegView, kind_of};

/// The part of an interchange that is looked at: where it begins, up to where CR and LF alone are in it, and up to where no
/// terminator is in it.
#[derive(Clone, Copy, Debug)]
pub struct OpenPart {
    /// Where it begins.
    pub at: usize,
    /// The first byte that is no CR and no LF, or where none is read yet.
    pub lead: usize,
    /// Up to here no terminator is in it.
    pub seen: usize,
}

/// What a part makes of its interchange.
pub(crate) enum Step {
    /// It continues at this offset.
    On(usize),
    /// It ends at this offset.
    End(usize),
    /// That isn't known yet.
    Wait(OpenPart),
}

/// What is known of an interchange's end, with how far was searched.
pub(crate) enum Walked {
    /// It ends at this offset.
    End(usize, Searched),
    /// It isn't whole by what is read.
    Wait(OpenPart),
}

/// A part that begins at this offset.
fn opened(at: usize) -> OpenPart
    ensures at { result.at ≡ at }
    ensures lead { result.lead ≡ at }
    ensures seen { result.seen ≡ at }
{
    OpenPart {
        at,
        lead: at,
        seen: at,
    }
}

/// The first byte of a part that is no CR and no LF, or the terminator.
fn lead_from(read: &[u8], terminator: u8, from: usize) -> usize
    requires { from ≤ length read.now }
    ensures value { result ≡ from + prefix_len (λ b. is_line_end b && not (b == terminator)) (drop from read.now) }
    ensures within { result ≤ length read.now }
{
    from + lead(&read[from..], terminator)
}

fn lead(bytes: &[u8], terminator: u8) -> usize
    ensures value { result ≡ prefix_len (λ b. is_line_end b && not (b == terminator)) bytes.now }
    ensures bound { result ≤ length bytes.now }
{
    bytes
        .iter()
        .take_while(|b| (**b == b'\r' || **b == b'\n') && !(**b == terminator))
        .count()
}

/// Whether the segment between two offsets ends its interchange.
fn ends_interchange(read: &[u8], delims: Delims, start: usize, end: usize) -> bool
    requires start { start ≤ end }
    requires end { end ≤ length read.now }
    ensures { result ≡ ends_interchange (kind_of (view_of delims (seg_at read.now start end))) }
{
    let segment = SegView::new(start, &read[start..end], delims);
    match kind_of(&segment) {
        Kind::InterchangeTrailer => true,
        Kind::GroupHeader => false,
        Kind::GroupTrailer => false,
        Kind::SetHeader => false,
        Kind::SetTrailer => false,
        Kind::Ta1 => false,
        Kind::Other => false,
    }
}

/// What a segment between its first byte and its terminator makes of it, at whose start no header may begin.
fn pass(read: &[u8], delims: Delims, start: usize, end: usize) -> Step
    requires start { start ≤ end }
    requires end { end < length read.now }
    ensures { result ≡ if ends_interchange (kind_of (view_of delims (seg_at read.now start end))) then End (end + 1) else On (end + 1) }
{
    if ends_interchange(read, delims, start, end) {
        Step::End(end + 1)
    } else {
        Step::On(end + 1)
    }
}

/// What a part makes of its interchange, where its first byte is read, which isn't the terminator.
fn step_at(read: &[u8], delims: Delims, part: OpenPart, lead: usize) -> Step
    requires lead { IsOpen read.now delims.terminator part.at lead lead }
    requires seen { IsOpen read.now delims.terminator part.at part.lead part.seen }
    requires within { lead < length read.now }
    requires other { is_line_end (slice_index read.now lead) ≡ false }
    requires inner { (slice_index read.now lead == delims.terminator) ≡ false }
    ensures { Steps read.now delims part.at result }
{
    if read_header(read, lead).is_some() {
        return Step::End(lead);
    }
    let seen = lead.max(part.seen);
    if may_begin(read, lead) {
        return Step::Wait(OpenPart {
            at: part.at,
            lead,
            seen,
        });
    }
    match memchr(delims.terminator, &read[seen..]) {
        Some(ahead) => pass(read, delims, lead, seen + ahead),
        None => Step::Wait(OpenPart {
            at: part.at,
            lead,
            seen: read.len(),
        }),
    }
}

/// What a part makes of its interchange.
fn look_at(read: &[u8], delims: Delims, part: OpenPart) -> Step
    requires { IsOpen read.now delims.terminator part.at part.lead part.seen }
    ensures { Steps read.now delims part.at result }
{
    let lead = lead_from(read, delims.terminator, part.lead);
    if lead == read.len() {
        return Step::Wait(OpenPart {
            at: part.at,
            lead,
            seen: lead,
        });
    }
    if read[lead] == delims.terminator {
        return Step::On(lead + 1);
    }
    step_at(read, delims, part, lead)
}

/// Goes through the parts of an interchange that is open, from `part` on, as far as they are read. `searched` is what was searched
/// before, and `blocks` what threads searched: parts that can't end the interchange are passed over together.
pub(crate) fn walk(
    read: &[u8],
    delims: Delims,
    part: OpenPart,
    searched: Searched,
    blocks: Blocks<'_>,
) -> Walked
    requires blocks { All (AreSearched read.now) blocks.list.now }
    requires open_part { IsOpen read.now delims.terminator part.at part.lead part.seen }
    requires searched { AreSearched read.now searched }
    ensures { Walks read.now delims part.at result }
{
    let mut part = part;
    let mut searched = searched;
    loop {
        match look_at(read, delims, part) {
            Step::On(next) => {
                searched = search(read, searched, blocks, next);
                part = opened(pass_over(read, delims, searched, next));
            }
            Step::End(end) => return Walked::End(end, searched),
            Step::Wait(wait) => return Walked::Wait(wait),
        }
    }
}
