ghost use Rattle.std.specs.Prelude.{◌<◌, IfOk};
ghost use Rattle.mailbox.specs.Parts.{AreParts};

use hub_kinds::NoMemory;
use std::alloc::Global;

/// A part of a list, which one thread works on.
#[derive(Clone, Copy, Debug)]
pub(crate) struct Part {
    /// The place of its first element.
    pub(crate) from: usize,
    /// The place after its last.
    pub(crate) to: usize,
}

/// The parts of a list of this many elements, of which each but the last has this many.
pub(crate) fn parts_of(alloc: Global, count: usize, share: usize) -> Result<Vec<Part>, NoMemory>
    requires { 0 < share }
    ensures { IfOk result (λ parts. AreParts 0 count parts.items) }
{
    let mut parts = Vec::new(alloc);
    let mut from = 0;
    while from < count {
        let to = from + share.min(count - from);
        parts.push(Part { from, to })?;
        from = to;
    }
    Ok(parts)
}
