ghost use Rattle.std.specs.Prelude.{◌≡◌, ◌≤◌, IfOk, length, if◌then◌else◌};
ghost use Rattle.hub_kinds.specs.declared.limits.TheConstants.{LONGEST_TEXT};
ghost use Rattle.x12_bytes.specs.declared.layout.TheConstants.{HEADER_LEN};
ghost use Rattle.x12_bytes.specs.HeaderTest.{is_head};
ghost use Rattle.x12_segs.specs.Words.{SegValue, kind_of, is_control_letter};
ghost use Rattle.env_index.specs.Envelope.{Body, DerivesInterchange};
ghost use Rattle.env_index.specs.Source.{reach_over};
ghost use Rattle.env_index.specs.Places.{body_in};
ghost use Rattle.env_index.specs.Summary.{summary_of};

use crate::builder::Builder;
use crate::places::{BodyPlace, Stretch};
use crate::source::PartSource;
use hub_kinds::NoMemory;
use std::alloc::Global;
use x12_bytes::{Delims, read_header};
use x12_segs::{Kind, Part, SegView, kind_of};

/// Reads what an interchange has after its header to its end, part by part. Of each part, whether it
/// begins at a header is asked first.
pub(crate) fn read_body<P: PartSource + Drop>(
    alloc: Global,
    text: &[u8],
    delims: Delims,
    mut parts: P,
) -> Result<BodyPlace, NoMemory>
    requires text { P.text parts ≡ text.now }
    requires header { HEADER_LEN ≤ P.at parts }
    requires few { length text.now ≤ LONGEST_TEXT }
    ensures behind { IfOk result (λ body. P.at parts ≤ body.end) }
    ensures within { IfOk result (λ body. body.end ≤ length text.now) }
    ensures end { IfOk result (λ body. body.end ≡ (reach_over text.now delims (P.segs parts) (P.rest parts)).end) }
    ensures only { IfOk result
        (λ body. (tree : Body SegValue) → DerivesInterchange kind_of (reach_over text.now delims (P.segs parts) (P.rest parts)).segs tree
        → body_in text.now delims body ≡ summary_of tree) }
{
    let mut builder = Builder::new(alloc);
    loop {
        match parts.take_part() {
            Part::Rest { start } => {
                return builder.finish(alloc, None, rest_end(text, start));
            }
            Part::Segment { start, end } => {
                let place = Stretch {
                    start: start as u32,
                    end: end as u32,
                };
                if !is_control_letter(text[start]) {
                    builder.take_inner(place);
                    continue;
                }
                if begins_at_header(text, start) {
                    return builder.finish(alloc, None, start);
                }
                let segment = SegView::new(start, &text[start..end], delims);
                match kind_of(&segment) {
                    Kind::InterchangeTrailer => {
                        return builder.finish(alloc, Some(place), end + 1);
                    }
                    kind => builder.take(alloc, kind, place)?,
                }
            }
        }
    }
}

/// Whether a segment that begins with this letter may be a header or a control segment. Most don't.
fn is_control_letter(letter: u8) -> bool
    ensures { result ≡ is_control_letter letter }
{
    matches!(letter, b'I' | b'G' | b'S' | b'T')
}

/// Where an interchange ends whose rest begins here.
fn rest_end(text: &[u8], start: usize) -> usize
    requires { start ≤ length text.now }
    ensures behind { start ≤ result }
    ensures within { result ≤ length text.now }
    ensures end { result ≡ if is_head text.now start then start else length text.now }
{
    if begins_at_header(text, start) {
        start
    } else {
        text.len()
    }
}

/// Whether a part that begins here begins at a header. Hardly any does, so its first letter is asked first.
fn begins_at_header(text: &[u8], start: usize) -> bool
    requires { start ≤ length text.now }
    ensures { result ≡ is_head text.now start }
{
    if start >= text.len() {
        return false;
    }
    if text[start] != b'I' {
        return false;
    }
    read_header(text, start).is_some()
}
