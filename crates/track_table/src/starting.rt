ghost use Rattle.std.specs.Prelude.{◌≡◌, [], IfOk, length};
ghost use Rattle.std.specs.List.{All};
ghost use Rattle.count_numbers.specs.Num.{num};
ghost use Rattle.mailbox.specs.Numbers.{HasCap, HasCounters};
ghost use Rattle.track_table.specs.Walking.{AreBehind, AreFirst, IsReady, first_cursor};

use crate::cursor::Cursor;
use crate::sent::{Sent, sent_of};
use crate::tracking::Tracking;
use count_numbers::num;
use hub_kinds::NoMemory;
use partner_setup::Partner;
use std::alloc::Global;

/// The numbers of a partner's mailbox before any set, after what else is sent to it.
fn cursor_behind<'a>(partner: &Partner, sent: &Sent) -> Cursor<'a>
    requires counters { HasCounters partner.now }
    requires cap { HasCap partner.now }
    ensures { result ≡ first_cursor (num partner.now.counters.interchange sent.now.acknowledgments)
        (num partner.now.counters.group sent.now.groups) partner.now.counters.set partner.now.cap }
{
    Cursor::new(
        num(partner.counters.interchange, sent.acknowledgments),
        num(partner.counters.group, sent.groups),
        partner.counters.set,
        partner.cap,
    )
}

/// The numbers of each partner's mailbox before any set, by what else is sent to it.
fn cursors_behind<'a>(
    alloc: Global,
    partners: &[Partner],
    sent: &[Sent],
) -> Result<Vec<Cursor<'a>>, NoMemory>
    requires sound { All IsReady partners.now }
    requires count { length sent.now ≡ length partners.now }
    ensures { IfOk result (λ v. AreFirst partners.now sent.now v.items) }
{
    let mut cursors = Vec::new(alloc);
    for place in 0..partners.len() {
        cursors.push(cursor_behind(&partners[place], &sent[place]))?;
    }
    Ok(cursors)
}

/// The numbers of each partner's mailbox before any set.
pub(crate) fn first_cursors<'a>(by: &Tracking<'_, '_>) -> Result<Vec<Cursor<'a>>, NoMemory>
    ensures { IfOk result (λ v. AreBehind by.now [] v.items) }
{
    let partners = by.setup.partners();
    let sent = sent_of(by.alloc, partners.len(), by.night)?;
    cursors_behind(by.alloc, partners, sent.as_slice())
}
