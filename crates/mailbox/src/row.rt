ghost use Rattle.std.specs.Prelude.{◌≡◌, ◌+◌, ◌<◌, ◌^◌, ◌++◌, IfOk, OnOk, length};
ghost use Rattle.count_numbers.specs.Num.{num};
ghost use Rattle.mailbox.specs.Mailbox.{set_text};
ghost use Rattle.mailbox.specs.Numbers.{HasCounters};
ghost use Rattle.mailbox.specs.Rendered.{rendered_from};

use crate::render::append_set_of;
use crate::rendered_sets::Row;
use answered_sets::PlacedSet;
use count_numbers::num;
use hub_kinds::NoMemory;
use partner_setup::Partner;
use std::alloc::Global;

/// How many bytes more a set may have as it is delivered than as it was read: GS01, GS08, longer numbers, and an SE.
const MORE: usize = 64;

/// Writes GS01, GS08 and a set as it is delivered, before which `k` sets were delivered to the partner.
pub(crate) fn append_written(
    out: &mut Vec<u8>,
    partner: &Partner,
    k: u64,
    placed: &PlacedSet<'_, '_, '_>,
    id: &[u8],
    version: &[u8],
) -> Result<(), NoMemory>
    requires { HasCounters partner.now }
    ensures { OnOk result (out.new.items
        ≡ out.old.items ++ ((id.now ++ version.now) ++ set_text partner.now.delims placed.now (num partner.now.counters.set k))) }
{
    out.extend_from_slice(id)?;
    out.extend_from_slice(version)?;
    let number = num(partner.counters.set, k);
    append_set_of(out, &partner.delims, placed, &placed.set(), number)
}

/// About how many bytes sets have as they are delivered: rather too many.
fn room_for_texts(sets: &[PlacedSet<'_, '_, '_>]) -> usize {
    let mut room: usize = 0;
    for i in 0..sets.len() {
        let set = sets[i].set();
        room = room
            .saturating_add(sets[i].stretch(&set).len())
            .saturating_add(MORE);
    }
    room
}

/// Writes sets that are delivered to a partner, before which `k` sets were delivered to it, front to back, in one text.
pub(crate) fn write_row(
    alloc: Global,
    partner: &Partner,
    k: u64,
    sets: &[PlacedSet<'_, '_, '_>],
) -> Result<Row, NoMemory>
    requires counters { HasCounters partner.now }
    requires few { k + length sets.now < 2 ^ 64 }
    ensures { IfOk result (λ row. row ≡ rendered_from partner.now k sets.now) }
{
    let mut row = Row::with_room(alloc, room_for_texts(sets), sets.len())?;
    for i in 0..sets.len() {
        row = row.with(partner, k + i as u64, &sets[i])?;
    }
    Ok(row)
}
