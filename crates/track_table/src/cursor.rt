ghost use Rattle.std.specs.Prelude.{◌≡◌, ◌+◌, ◌≤◌, IfOk};
ghost use Rattle.mailbox.specs.Numbered.{group_key_of};
ghost use Rattle.track_table.specs.Walking.{goes_with};

use crate::mailed::Mailed;
use answered_sets::PlacedSet;
use count_numbers::num;
use hub_kinds::NoMemory;
use std::marker::Model;

/// What the sets of a group of a mailbox have in common (X12.6): the sender's place, GS01 and GS08.
#[derive(Drop)]
pub(crate) struct GroupKey<'a> {
    sender: usize,
    functional_id: &'a [u8],
    version: &'a [u8],
}

impl<'a> Model for GroupKey<'a> {
    ghost use Rattle.count_numbers.specs.declared.run.RunKey.{RunKey};

    ghost Value = { RunKey };

    ghost view = { λ k. record { sender = k.sender; functional_id = k.functional_id.now; version = k.version.now } };
}

/// The key of a set.
pub(crate) fn key_of<'a>(placed: &PlacedSet<'_, '_, 'a>) -> GroupKey<'a>
    ensures { result ≡ group_key_of placed.now }
{
    let sender = match placed.interchange().sender() {
        None => 0,
        Some(sender) => sender,
    };
    let header = placed.group().header();
    GroupKey {
        sender,
        functional_id: header.element(1),
        version: header.element(8),
    }
}

/// Whether sets with these keys go into one group.
fn goes_with(last: &Option<GroupKey<'_>>, key: &GroupKey<'_>) -> bool
    ensures { result ≡ goes_with last.now key.now }
{
    match last {
        None => false,
        Some(last) => {
            last.sender == key.sender
                && last.functional_id == key.functional_id
                && last.version == key.version
        }
    }
}

/// A count and one more. No memory holds more things than a count can say.
pub(crate) fn one_more(count: u64) -> Result<u64, NoMemory>
    ensures { IfOk result (λ more. more ≡ count + 1) }
{
    match count.checked_add(1) {
        None => Err(NoMemory),
        Some(more) => Ok(more),
    }
}

/// How far the numbers of a partner's mailbox have come.
#[derive(Drop)]
pub(crate) struct Cursor<'a> {
    interchange: u32,
    group: u32,
    set: u32,
    cap: u32,
    sets: u64,
    groups: u64,
    last: Option<GroupKey<'a>>,
}

impl<'a> Model for Cursor<'a> {
    ghost use Rattle.std.specs.Prelude.{◌≤◌};
    ghost use Rattle.track_table.specs.Walking.{CursorValue, AreNumbers};

    ghost Value = { CursorValue };

    ghost view = { λ c. record {
      interchange = c.interchange;
      group = c.group;
      set = c.set;
      cap = c.cap;
      sets = c.sets;
      groups = c.groups;
      last = c.last;
    } };

    ghost invariant = { λ c. AreNumbers c.interchange c.group c.set × (1 ≤ c.cap) };
}

impl<'a> Cursor<'a> {
    ghost use Rattle.std.specs.Prelude.{◌≡◌, ◌≤◌, IfOk, OnOk};
    ghost use Rattle.track_table.specs.Walking.{AreNumbers, advanced, begins_group, first_cursor, mailed_at, mailed_next};

    /// Before any set, where these are the first numbers of the mailbox and an interchange holds this many sets.
    pub(crate) fn new(interchange: u32, group: u32, set: u32, cap: u32) -> Cursor<'a>
        requires numbers { AreNumbers interchange group set }
        requires cap { 1 ≤ cap }
        ensures { result ≡ first_cursor interchange group set cap }
    {
        Cursor {
            interchange,
            group,
            set,
            cap,
            sets: 0,
            groups: 0,
            last: None,
        }
    }

    /// Whether a set with this key begins a group.
    fn begins_group(&self, key: &GroupKey<'_>) -> bool
        ensures { result ≡ begins_group self.now key.now }
    {
        self.sets % u64::from(self.cap) == 0 || !goes_with(&self.last, key)
    }

    /// The numbers of the next set.
    fn numbers(&self, groups: u64) -> Mailed
        ensures { result ≡ mailed_at self.now groups }
    {
        Mailed {
            interchange: num(self.interchange, self.sets / u64::from(self.cap)),
            group: num(self.group, groups.saturating_sub(1)),
            set: num(self.set, self.sets),
        }
    }

    /// The numbers of the next set, which has this key; the one after it is the next then. The only error is out of memory.
    pub(crate) fn next(&mut self, key: GroupKey<'a>) -> Result<Mailed, NoMemory>
        ensures mailed { IfOk result (λ mailed. mailed ≡ mailed_next self.old key.entry) }
        ensures advanced { OnOk result (self.new ≡ advanced self.old key.entry) }
    {
        let groups = if self.begins_group(&key) {
            one_more(self.groups)?
        } else {
            self.groups
        };
        let sets = one_more(self.sets)?;
        let mailed = self.numbers(groups);
        self.groups = groups;
        self.sets = sets;
        self.last = Some(key);
        Ok(mailed)
    }
}
