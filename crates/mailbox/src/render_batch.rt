ghost use Rattle.std.specs.Prelude.{◌≡◌, ◌<◌, ◌++◌, [], List, Some, IfOk, OnOk, length, replicate, slice_get, slice_set};
ghost use Rattle.partner_setup.specs.declared.partner.Partner.{Partner};
ghost use Rattle.answered_sets.specs.Judged.{JudgedValue};
ghost use Rattle.mailbox.specs.Deliveries.{AreDelivered};
ghost use Rattle.mailbox.specs.Rendered.{HaveRendered, RenderedValue, rendered_from};
ghost use Rattle.mailbox.specs.Rendering.{AreWritten};

use crate::deliveries::Delivered;
use crate::rendered_sets::RenderedSets;
use crate::writers::Writers;
use hub_kinds::NoMemory;
use partner_setup::Setup;
use std::alloc::Global;

/// For each partner of a setup, by its place, no written sets yet. The only error is out of memory.
pub fn nothing_rendered(alloc: Global, setup: &Setup) -> Result<Vec<RenderedSets>, NoMemory>
    ensures { IfOk result (λ boxes. boxes.items ≡ replicate (length setup.now.partners) []) }
{
    let mut boxes = Vec::new(alloc);
    for _ in 0..setup.partners().len() {
        boxes.push(RenderedSets::none(alloc))?;
    }
    Ok(boxes)
}

/// Writes the sets that are delivered to the partner at this place after those that were written before.
fn render_to<W: Writers>(
    alloc: Global,
    writers: &W,
    setup: &Setup,
    place: usize,
    list: &Delivered<'_, '_, '_>,
    boxes: &mut [RenderedSets],
) -> Result<(), NoMemory>
    requires ready { W.is_ready writers.now }
    requires partner { place < length setup.now.partners }
    requires there { place < length boxes.old }
    ensures { OnOk result ((partner : Partner) (sets : List RenderedValue) → slice_get setup.now.partners place ≡ Some partner
        → slice_get boxes.old place ≡ Some sets
        → boxes.new ≡ slice_set boxes.old place (sets ++ rendered_from partner (length sets) list.now)) }
{
    let partner = &setup.partners()[place];
    boxes[place].add_all(alloc, writers, partner, list.sets())
}

/// Writes the sets that are delivered to each partner after those that were written before.
fn render_each<W: Writers>(
    alloc: Global,
    writers: &W,
    setup: &Setup,
    lists: &[Delivered<'_, '_, '_>],
    boxes: &mut [RenderedSets],
) -> Result<(), NoMemory>
    requires ready { W.is_ready writers.now }
    requires lists { length lists.now ≡ length setup.now.partners }
    requires boxes { length boxes.old ≡ length setup.now.partners }
    ensures { OnOk result (AreWritten setup.now lists.now (length lists.now) boxes.old boxes.new) }
{
    for place in 0..lists.len() {
        render_to(alloc, writers, setup, place, &lists[place], boxes)?;
    }
    Ok(())
}

/// Has the sets that are delivered to each partner, `lists`, written after those that were written before for it, and numbers them on
/// (X12.6, transaction set). The only error is out of memory.
pub fn render_deliveries<W: Writers>(
    alloc: Global,
    writers: &W,
    setup: &Setup,
    lists: &[Delivered<'_, '_, '_>],
    boxes: &mut [RenderedSets],
) -> Result<(), NoMemory>
    requires ready { W.is_ready writers.now }
    requires lists { length lists.now ≡ length setup.now.partners }
    requires boxes { length boxes.old ≡ length setup.now.partners }
    ensures { OnOk result ((xs : List JudgedValue) → AreDelivered setup.now xs lists.now
        → HaveRendered setup.now xs boxes.old boxes.new) }
{
    render_each(alloc, writers, setup, lists, boxes)
}
