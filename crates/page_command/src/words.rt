//! What the 999 says of a sample, in words.
ghost use Rattle.std.specs.Prelude.{◌≡◌, IfOk};
ghost use Rattle.page_command.specs.Samples.{words_said};

use ack_lines::fault_lines;
use ack_read::read_by;
use guide_names::Names;
use hub_kinds::NoMemory;
use std::alloc::Global;
use x12_bytes::read_header;

/// What `lines`, which a 999 says of the set of `sample`, say of its segments and elements, with the names that `names` has. The
/// delimiters are those of the sample's header.
pub(crate) fn words_said(
    alloc: Global,
    names: &Names,
    sample: &[u8],
    lines: &[u8],
) -> Result<Vec<u8>, NoMemory>
    ensures { IfOk result (λ words. words.items ≡ words_said names.now sample.now lines.now) }
{
    let Some(header) = read_header(sample, 0) else {
        return Ok(Vec::new(alloc));
    };
    let told = read_by(alloc, header.delims(), lines)?;
    fault_lines(alloc, names, told.as_slice())
}
