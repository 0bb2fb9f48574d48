ghost use Rattle.std.specs.Prelude.{◌≡◌, ◌+◌, ◌<◌, Contains, IfOk, OnErr, if◌then◌else◌, length, sum, vec_len};
ghost use Rattle.env_index.specs.Words.{places_of};
ghost use Rattle.number_register.specs.Placing.{IsKeyAt};
ghost use Rattle.number_register.specs.Recording.{one_if};

use crate::fault::RecordFault;
use crate::key::{Key, key_at};
use crate::records::Records;
use env_index::Index;
use hub_kinds::{NoMemory, Place};
use std::alloc::Global;
use std::hint::spin_loop;
use std::marker::{Brand, Model, PhantomData};
use std::sync::ledger::{Blank, Ledger};
use std::sync::{Mutex, MutexGuard, Wait, ledger};

/// How often a thread tries the lock before it sleeps. A record is made in less time than it takes to wake a thread.
const TRIES: u32 = 4_000;

/// Names one index and one ledger: what lies under a lock is known by its type alone.
pub trait Named: Ledger {
    ghost use Rattle.env_index.specs.Index.{IndexValue};

    ghost index: { IndexValue };
}

impl Named for Brand {
    ghost use Rattle.number_register.specs.NoIndex.{no_index};

    ghost index = { no_index };
}

// What lies under the lock: the records of the index, and the ledger's book of how many they are.
#[derive(Drop)]
struct Locked<'i, 'a, J: Named> {
    records: Records<'i, 'a>,
    book: ledger::Book<J>,
    ghost named: { records.index ≡ J.index },
    ghost counted: { book.total ≡ length records.recorded },
}

/// The side of a register that threads share.
#[derive(Drop)]
pub struct RecordLock<'i, 'a, J: Named> {
    index: &'i Index<'a>,
    lock: Mutex<Locked<'i, 'a, J>>,
    ghost named: { index.now ≡ J.index },
}

/// One part of a register's ledger. Contracts see how many places were recorded with it.
#[derive(Drop)]
pub struct Share<J: Named> {
    token: ledger::Share<J>,
}

impl<J: Named> Model for Share<J> {
    ghost use Rattle.std.specs.Prelude.{◌≡◌, ℕ};

    ghost Value = { ℕ };

    ghost view = { λ s. s.token.amount };

    ghost invariant = { λ s. s.token.parts ≡ 1 };
}

/// That a place was recorded, and whether it wasn't before. Only `record_locked` makes one.
#[derive(Drop)]
pub struct Recorded {
    place: Place,
    is_fresh: bool,
}

impl Model for Recorded {
    ghost use Rattle.number_register.specs.Recording.{Note};

    ghost Value = { Note };

    ghost view = { λ r. record { place = r.place; fresh = r.is_fresh } };
}

impl Recorded {
    ghost use Rattle.std.specs.Prelude.{◌≡◌};

    /// The place.
    pub fn place(&self) -> Place
        ensures { result ≡ self.now.place }
    {
        self.place
    }

    /// Whether it wasn't recorded before.
    pub fn is_fresh(&self) -> bool
        ensures { result ≡ self.now.fresh }
    {
        self.is_fresh
    }
}

/// A register: records under a lock, and what is left of its ledger. Contracts see how many shares it gave.
#[derive(Drop)]
pub struct Register<'i, 'a, J: Named> {
    side: RecordLock<'i, 'a, J>,
    rest: ledger::Share<J>,
    given: u64,
}

impl<'i, 'a, J: Named> Model for Register<'i, 'a, J> {
    ghost use Rattle.std.specs.Prelude.{◌≡◌, ◌+◌, ◌≤◌, ℕ};

    ghost Value = { ℕ };

    ghost view = { λ r. r.given };

    ghost invariant = { λ r. (r.rest.parts + r.given ≡ 65) × (r.rest.amount ≡ 0) × (r.given ≤ 64) × (J.parts ≡ 65) };
}

impl<'i, 'a, J: Named> Locked<'i, 'a, J> {
    fn record(&mut self, share: &mut Share<J>, place: Place, key: Key<'a>) -> Result<bool, NoMemory>
        requires place { Contains (places_of J.index) place }
        requires key { IsKeyAt J.index.entries place key }
        ensures fresh { IfOk result (λ fresh. share.new ≡ share.old + one_if fresh) }
        ensures err { OnErr result (share.new ≡ share.old) }
    {
        let Locked { records, book, .. } = self;
        match records.record_key(place, key) {
            Ok(()) => {
                book.add(&mut share.token, 1);
                Ok(true)
            }
            Err(RecordFault::Already) => Ok(false),
            Err(RecordFault::NoMemory) => Err(NoMemory),
        }
    }
}

/// Takes `lock`: tries it first, and then sleeps until it is free.
fn taken<'g, 'i, 'a, J: Named, R: Wait>(
    rt: &R,
    lock: &'g Mutex<Locked<'i, 'a, J>>,
) -> MutexGuard<'g, Locked<'i, 'a, J>> {
    for _ in 0..TRIES {
        if let Some(guard) = lock.try_lock() {
            return guard;
        }
        spin_loop();
    }
    lock.lock(rt)
}

impl<'i, 'a, J: Named> RecordLock<'i, 'a, J> {
    /// Records a place of the register's index, which it names; waits for the lock. A fresh record raises the share by one, else it
    /// stays. The number is read before the lock is taken. The only error is out of memory.
    pub fn record_locked<R: Wait>(
        &self,
        rt: &R,
        share: &mut Share<J>,
        place: Place,
    ) -> Result<Recorded, NoMemory>
        requires { Contains (places_of J.index) place }
        ensures ok { IfOk result (λ r. (r.place ≡ place) × (share.new ≡ share.old + one_if r.fresh)) }
        ensures err { OnErr result (share.new ≡ share.old) }
    {
        let key = key_at(self.index, place);
        let mut guard = taken(rt, &self.lock);
        let locked = &mut *guard;
        let is_fresh = locked.record(share, place, key)?;
        Ok(Recorded { place, is_fresh })
    }
}

impl<'i, 'a, J: Named> Register<'i, 'a, J> {
    /// A register of an index, in which nothing is recorded; its ledger has 65 parts, one for each share and one that stays. The
    /// only error is out of memory.
    pub fn new(
        alloc: Global,
        index: &'i Index<'a>,
        blank: Blank,
    ) -> Result<Register<'i, 'a, J>, NoMemory>
        requires index { index.now ≡ J.index }
        requires blank { (blank.name ≡ J.name) × (blank.parts ≡ J.parts) × (blank.parts ≡ 65) }
        ensures { IfOk result (λ r. r ≡ 0) }
    {
        let records = Records::new(alloc, index)?;
        let (book, rest) = blank.open::<J>();
        Ok(Register {
            side: RecordLock {
                index,
                lock: Mutex::new(Locked { records, book }),
            },
            rest,
            given: 0,
        })
    }

    /// What threads share.
    pub fn side(&self) -> &RecordLock<'i, 'a, J> {
        &self.side
    }

    /// A share of 0, of which a register gives 64 at most.
    pub fn share(&mut self) -> Share<J>
        requires { self.old < 64 }
        ensures count { self.new ≡ self.old + 1 }
        ensures none { result ≡ 0 }
    {
        let token = self.rest.split_off(1, 0);
        self.given += 1;
        Share { token }
    }

    /// The records, once all shares are back: as many are recorded as the shares add up to.
    pub fn open(self, shares: Vec<Share<J>>) -> Records<'i, 'a>
        requires { vec_len shares ≡ self }
        ensures index { result.index ≡ J.index }
        ensures count { length result.recorded ≡ sum shares.items }
    {
        let Register { side, rest, .. } = self;
        let mut all = rest;
        let mut shares = shares;
        while let Some(share) = shares.pop() {
            let Share { token } = share;
            all.merge(token);
        }
        let Locked {
            records,
            mut book,
            ..
        } = side.lock.into_inner();
        book.audit(&mut all);
        records
    }
}
