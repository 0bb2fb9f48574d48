ghost use Rattle.std.specs.Prelude.{◌≡◌, ◌+◌, ◌≤◌, IfOk, IfSome, is_some, length};
ghost use Rattle.hub_kinds.specs.declared.limits.TheConstants.{LONGEST_TEXT};
ghost use Rattle.x12_bytes.specs.declared.layout.TheConstants.{HEADER_LEN};
ghost use Rattle.x12_bytes.specs.HeaderTest.{is_head};
ghost use Rattle.x12_segs.specs.Words.{SegValue, kind_of};
ghost use Rattle.env_index.specs.Envelope.{Body, DerivesInterchange};
ghost use Rattle.env_index.specs.Extents.{reach_at};
ghost use Rattle.env_index.specs.Interchange.{interchange_of};
ghost use Rattle.env_index.specs.Spans.{HasSpans};

use crate::interchange::Interchange;
use crate::source::TextParts;
use crate::walk::read_body;
use hub_kinds::NoMemory;
use std::alloc::Global;
use x12_bytes::{HEADER_LEN, read_header};

/// The interchange whose header (ISA) begins at the offset `start`; none where no header begins
/// there. It ends after the terminator of its IEA; without one at the next segment that begins at
/// a header, or at the text's end. What follows its end is not read (X12.5, interchange).
///
/// The text has at most `LONGEST_TEXT` bytes, since places are kept in 32 bits; offsets count its bytes
/// from 0. The only error is out of memory.
pub fn read_interchange<'a>(
    alloc: Global,
    text: &'a [u8],
    start: usize,
) -> Result<Option<Interchange<'a>>, NoMemory>
    requires { length text.now ≤ LONGEST_TEXT }
    ensures found { IfOk result (λ found. is_some found ≡ is_head text.entry.now start) }
    ensures within { IfOk result (λ found. IfSome found (λ x. x.end ≤ length text.entry.now)) }
    ensures behind { IfOk result (λ found. IfSome found (λ x. start + HEADER_LEN ≤ x.end)) }
    ensures tree { IfOk result
        (λ found. IfSome found
        (λ x. (tree : Body SegValue) × DerivesInterchange kind_of (reach_at text.entry.now start).segs tree
        × (x ≡ interchange_of text.entry.now start tree))) }
    ensures only { IfOk result
        (λ found. IfSome found
        (λ x. (tree : Body SegValue) → DerivesInterchange kind_of (reach_at text.entry.now start).segs tree
        → x ≡ interchange_of text.entry.now start tree)) }
    ensures spans { IfOk result (λ found. IfSome found (λ x. HasSpans text.entry.now x)) }
{
    let Some(header) = read_header(text, start) else {
        return Ok(None);
    };
    let delims = header.delims();
    let parts = TextParts::new(text, delims.terminator, start + HEADER_LEN);
    let body = read_body(alloc, text, delims, parts)?;
    Ok(Some(Interchange::new(text, header, start, body)))
}
