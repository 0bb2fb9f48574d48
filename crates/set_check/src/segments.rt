ghost use Rattle.std.specs.Prelude.{◌≡◌, IfOk};
ghost use Rattle.x12_segs.specs.Words.{IsSetSpan, span_views};

use hub_kinds::NoMemory;
use std::alloc::Global;
use x12_segs::{SegView, SetSpan};

/// The segments of a set, first to last: each is found once.
pub(crate) fn segments_of<'a>(
    alloc: Global,
    text: &'a [u8],
    set: &SetSpan,
) -> Result<Vec<SegView<'a>>, NoMemory>
    requires { IsSetSpan text.now set.now }
    ensures { IfOk result (λ v. v.items ≡ span_views text.entry.now set.now) }
{
    Ok(set.segments(text).collect(alloc)?)
}
