ghost use Rattle.std.specs.Prelude.{◌≡◌, ℕ, ◌+◌, ◌-◌, ◌<◌, ◌≤◌, [], ◌∷◌, ◌++◌, IfOk, MatchOption};
ghost use Rattle.claim_desk.specs.Seats.{EachOnce};

use crate::rule::{Claims, Cut, Glue, InOrder, Looks, View};
use hub_kinds::NoMemory;
use std::alloc::Global;
use std::marker::Model;

/// The number of a job, counted from 0.
pub type JobNo = u64;

/// Gives the numbers of `n` jobs, each once, to its seats. Threads share it; contracts see its name: which
/// desk it is, how many jobs it has and how many seats it was opened for.
#[derive(Drop)]
pub struct Desk {
    table: atomic_table::Table<(), View, (u64, u64), InOrder, Global>,
    n: u64,
    seats: u64,
}

impl Model for Desk {
    ghost use Rattle.std.specs.Prelude.{◌≡◌};
    ghost use Rattle.claim_desk.specs.Seats.{DeskName};

    ghost Value = { DeskName };

    ghost view = { λ d. record { table = d.table.shared.table_id; n = d.n; seats = d.seats } };

    ghost invariant = { λ d. d.table.shared.table_id.words ≡ 1 };
}

/// The right to claim jobs of one desk: how much of the desk's seats it is (its weight), which jobs it got,
/// in that order, and how many of those seats were reported that none is left (`ended`). A seat that is dropped
/// is lost: then no other one ever has the whole weight.
#[derive(Drop)]
pub struct Seat {
    seat: atomic_table::Seat<(), View>,
    weight: u64,
    is_done: bool,
}

impl Model for Seat {
    ghost use Rattle.claim_desk.specs.Seats.{Holding};

    ghost Value = { Holding };

    ghost use Rattle.claim_desk.specs.Inside.{holding, IsSound};

    ghost view = { holding };

    ghost invariant = { IsSound };
}

impl Desk {
    /// A desk for that many jobs, and one seat that is all its seats. The only error is out of memory.
    pub fn new(alloc: Global, n: u64, seats: u64) -> Result<(Desk, Seat), NoMemory>
        requires n { n ≤ 4611686018427387904 }
        requires seats { (1 ≤ seats) × (seats ≤ 64) }
        ensures desk { IfOk result (λ r. (r.0.n ≡ n) × (r.0.seats ≡ seats) × (r.1.desk ≡ r.0)) }
        ensures seat { IfOk result (λ r. (r.1.got ≡ []) × (r.1.weight ≡ seats) × (r.1.ended ≡ 0)) }
    {
        let (table, seat) = atomic_table::Table::of_words(alloc, &[0], &(n, seats))?;
        Ok((
            Desk { table, n, seats },
            Seat {
                seat,
                weight: seats,
                is_done: false,
            },
        ))
    }

    /// How many jobs it has.
    pub fn count(&self) -> u64
        ensures { result ≡ self.now.n }
    {
        self.n
    }

    /// The next job that no seat got yet, by one step of the shared word and without waiting; none where no
    /// job is left. A seat that was reported so makes no step again. One that is all the desk's seats has then
    /// got each job once.
    pub fn claim(&self, seat: &mut Seat) -> Option<JobNo>
        requires { seat.old.desk ≡ self.now }
        ensures same { (seat.new.desk ≡ seat.old.desk) × (seat.new.weight ≡ seat.old.weight) }
        ensures some { MatchOption result (0 < seat.new.ended) (λ j. (j < self.now.n) × (seat.new.ended ≡ 0)) }
        ensures got { MatchOption result (seat.new.got ≡ seat.old.got) (λ j. seat.new.got ≡ seat.old.got ++ j ∷ []) }
        ensures all { seat.new.weight ≡ self.now.seats → 0 < seat.new.ended → EachOnce self.now.n seat.new.got }
    {
        if seat.is_done {
            return None;
        }
        let number = self.table.shared.fetch_add::<Claims>(&mut seat.seat, 0, 1);
        if number < self.n {
            Some(number)
        } else {
            seat.is_done = true;
            None
        }
    }

    /// A seat of weight 1, cut off this one, which has got nothing yet.
    pub fn split(&self, seat: &mut Seat) -> Seat
        requires desk { seat.old.desk ≡ self.now }
        requires weight { (2 ≤ seat.old.weight) × (seat.old.ended ≡ 0) }
        ensures kept { (seat.new.desk ≡ self.now) × (seat.new.got ≡ seat.old.got) × (seat.new.weight + 1 ≡ seat.old.weight)
            × (seat.new.ended ≡ 0) }
        ensures new { (result.desk ≡ self.now) × (result.got ≡ []) × (result.weight ≡ 1) × (result.ended ≡ 0) }
    {
        let other = self.table.shared.split_seat::<Cut>(&mut seat.seat);
        seat.weight -= 1;
        Seat {
            seat: other,
            weight: 1,
            is_done: false,
        }
    }

    /// Takes over another seat of the desk: what it got, its weight, its ends. A seat that is all the desk's
    /// seats, of which one has ended, has got each job once.
    pub fn join(&self, seat: &mut Seat, other: Seat)
        requires { (seat.old.desk ≡ self.now) × (other.desk ≡ self.now) }
        ensures got { seat.new.got ≡ seat.old.got ++ other.got }
        ensures sums { (seat.new.desk ≡ self.now) × (seat.new.weight ≡ seat.old.weight + other.weight)
            × (seat.new.ended ≡ seat.old.ended + other.ended) }
        ensures all { seat.new.weight ≡ self.now.seats → 0 < seat.new.ended → EachOnce self.now.n seat.new.got }
    {
        let Seat {
            seat: theirs,
            weight,
            is_done,
        } = other;
        self.table.shared.join_seat::<Glue>(&mut seat.seat, theirs);
        self.table.shared.load::<Looks>(&mut seat.seat, 0);
        seat.weight += weight;
        seat.is_done = seat.is_done || is_done;
    }
}

impl Seat {
    /// How many of its desk's seats it is. One that is all of them, of which one has ended, has got each job once.
    pub fn weight(&self) -> u64
        ensures value { result ≡ self.now.weight }
        ensures whole { self.now.weight ≡ self.now.desk.seats → 0 < self.now.ended → EachOnce self.now.desk.n self.now.got }
    {
        self.weight
    }
}
