ghost use Rattle.std.specs.Prelude.{◌≡◌, ◌≤◌, ◌<◌, ◌++◌, [], List, Some, IfOk, OnOk, length, slice_get, slice_index_or, slice_set};
ghost use Rattle.answered_sets.specs.Judged.{JudgedValue, PlacedValue};
ghost use Rattle.partner_setup.specs.Setup.{SetupValue};
ghost use Rattle.mailbox.specs.Deliveries.{AreDelivered};
ghost use Rattle.mailbox.specs.Delivering.{HasGrown};

use crate::deliveries::{Delivered, Deliveries};
use hub_kinds::NoMemory;

/// Adds sets to those of a partner.
fn append_to<'j, 'i, 'a>(
    lists: &mut [Delivered<'j, 'i, 'a>],
    to: usize,
    more: Delivered<'j, 'i, 'a>,
) -> Result<(), NoMemory>
    requires { to < length lists.old }
    ensures { OnOk result ((xs : List PlacedValue) → slice_get lists.old to ≡ Some xs
        → lists.new ≡ slice_set lists.old to (xs ++ more.entry)) }
{
    lists[to].append(more)
}

/// Adds to the sets of each partner those of later interchanges.
fn append_lists<'j, 'i, 'a>(
    lists: &mut [Delivered<'j, 'i, 'a>],
    more: Deliveries<'j, 'i, 'a>,
) -> Result<(), NoMemory>
    requires { length more.items ≤ length lists.old }
    ensures { OnOk result (HasGrown (λ q. slice_index_or more.entry.items q []) lists.old lists.new) }
{
    let mut place = 0;
    for sets in more {
        append_to(lists, place, sets)?;
        place += 1;
    }
    Ok(())
}

/// The sets that are delivered to each partner of interchanges, `first`, and after them those of later interchanges, `more`. The only
/// error is out of memory.
pub fn joined_deliveries<'j, 'i, 'a>(
    first: Deliveries<'j, 'i, 'a>,
    more: Deliveries<'j, 'i, 'a>,
) -> Result<Deliveries<'j, 'i, 'a>, NoMemory>
    requires { length more.items ≤ length first.items }
    ensures { IfOk result (λ all. (setup : SetupValue) (xs ys : List JudgedValue) → AreDelivered setup xs first.entry.items
        → AreDelivered setup ys more.entry.items → AreDelivered setup (xs ++ ys) all.items) }
{
    let mut lists = first;
    append_lists(lists.as_mut_slice(), more)?;
    Ok(lists)
}
