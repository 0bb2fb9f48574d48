ghost use Rattle.std.specs.Prelude.{◌≡◌, IfErr, IfOk};
ghost use Rattle.ack_read.specs.Reading.{AreToldBy, IsRefused, first_delims, responses_told, ta1s_told};
ghost use Rattle.ack_read.specs.Responses.{responses_in};
ghost use Rattle.ack_read.specs.Ta1s.{ta1s_in};
ghost use Rattle.ack_read.specs.Told.{told_in};

use crate::fault::ReadFault;
use crate::standing::Standing;
use crate::told::Told;
use hub_kinds::NoMemory;
use std::alloc::Global;
use x12_bytes::{Delims, read_header};
use x12_segs::segments;

/// What the acknowledgments of a text report, in its order: of interchanges (TA1), of sets (AK2 to IK5) and of groups (AK1 to AK9). The
/// text is read by the delimiters of the header that it begins with. It takes as much work as the text has bytes.
pub fn read_acknowledgments<'a>(alloc: Global, text: &'a [u8]) -> Result<Vec<Told<'a>>, ReadFault>
    ensures told { IfOk result (λ found. AreToldBy text.now found.items) }
    ensures sets { IfOk result (λ found. responses_told found.items ≡ responses_in (first_delims text.now) text.now) }
    ensures ta1s { IfOk result (λ found. ta1s_told found.items ≡ ta1s_in (first_delims text.now) text.now) }
    ensures refused { IfErr result (IsRefused text.now) }
{
    let Some(header) = read_header(text, 0) else {
        return Err(ReadFault::NoHeader);
    };
    let found = read_by(alloc, header.delims(), text)?;
    if found.is_empty() {
        return Err(ReadFault::TellsNothing);
    }
    Ok(found)
}

/// What `text` reports, in its order, read by the delimiters `delims`, whatever it begins with: so a part of an acknowledgment can be read
/// alone. The only error is out of memory.
#[tactic(auto, using(night_equal::proofs::ForAbove::segments_are))]
pub fn read_by<'a>(alloc: Global, delims: Delims, text: &'a [u8]) -> Result<Vec<Told<'a>>, NoMemory>
    ensures { IfOk result (λ found. found.items ≡ told_in delims text.now) }
{
    let mut found = Vec::new(alloc);
    let mut standing = Standing::at_begin(alloc);
    for segment in segments(text, delims) {
        standing.pass(alloc, delims, &segment, &mut found)?;
    }
    Ok(found)
}
