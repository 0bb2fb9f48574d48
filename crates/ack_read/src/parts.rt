ghost use Rattle.std.specs.Prelude.{◌≡◌, IfOk, filter, length, map, slice_index_or, drop, []};
ghost use Rattle.x12_bytes.specs.declared.delims.Delims.{Delims};
ghost use Rattle.x12_segs.specs.Words.{elements_of};
ghost use Rattle.ack_read.specs.Told.{element_told, has_bytes, segment_told};

use crate::told::{ElementTold, SegmentTold};
use hub_kinds::{Items, Lent, NoMemory};
use std::alloc::Global;
use x12_bytes::Delims;
use x12_segs::{Parts, SegView, components};

/// The next part, lent.
pub(crate) fn next_lent<'a>(parts: &mut Parts<'a>) -> Lent<'a>
    ensures value { result ≡ slice_index_or parts.old 0 [] }
    ensures left { parts.new ≡ drop 1 parts.old }
{
    Lent::new(parts.next_or_empty())
}

/// The parts that are left and aren't empty, lent.
pub(crate) fn lent_texts<'a>(alloc: Global, parts: Parts<'a>) -> Result<Items<Lent<'a>>, NoMemory>
    ensures { IfOk result (λ texts. texts ≡ filter has_bytes parts.entry) }
{
    let mut texts = Vec::new(alloc);
    for part in parts {
        if !part.is_empty() {
            texts.push(Lent::new(part))?;
        }
    }
    Ok(Items::from_vec(texts))
}

/// What an IK3 reports.
pub(crate) fn segment_told<'a>(segment: &SegView<'a>) -> SegmentTold<'a>
    ensures { result ≡ segment_told (elements_of segment.now) }
{
    let mut elements = segment.elements();
    SegmentTold {
        id: next_lent(&mut elements),
        position: next_lent(&mut elements),
        loop_id: next_lent(&mut elements),
        code: next_lent(&mut elements),
    }
}

/// A copy of `segment`.
pub(crate) fn again<'a>(segment: &SegmentTold<'a>) -> SegmentTold<'a>
    ensures { result ≡ segment.now }
{
    SegmentTold {
        id: Lent::new(segment.id.bytes()),
        position: Lent::new(segment.position.bytes()),
        loop_id: Lent::new(segment.loop_id.bytes()),
        code: Lent::new(segment.code.bytes()),
    }
}

/// What an IK4 reports.
pub(crate) fn element_told<'a>(delims: Delims, segment: &SegView<'a>) -> ElementTold<'a>
    ensures { result ≡ element_told delims (elements_of segment.now) }
{
    let mut elements = segment.elements();
    let mut place = components(elements.next_or_empty(), delims);
    ElementTold {
        element: next_lent(&mut place),
        component: next_lent(&mut place),
        repetition: next_lent(&mut place),
        reference: next_lent(&mut elements),
        code: next_lent(&mut elements),
        copy: next_lent(&mut elements),
    }
}
