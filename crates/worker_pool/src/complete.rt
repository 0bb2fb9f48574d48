ghost use Rattle.std.specs.Prelude.{◌≡◌, length, map};
ghost use Rattle.claim_desk.specs.Seats.{EachOnce};
ghost use Rattle.env_index.specs.Words.{places_of};
ghost use Rattle.job_pool.specs.Work.{numbers_from};
ghost use Rattle.work_core.specs.Complete.{AreOnce, Complete};
ghost use Rattle.worker_pool.specs.Jobs.{number_of, place_of, slot_of};

use crate::job::CheckJob;
use claim_desk::Seat;
use number_register::FullRegister;
use set_check::Finding;

/// All is done, by the rule of any pool of workers: where the jobs are at the places of the register's index, each job was claimed
/// once and finished once, and each place recorded once, and no other. A theorem of what `run_checks` and `FullRegister::recorded` give.
pub fn checks_are_complete(
    full: &FullRegister<'_, '_>,
    jobs: &[CheckJob<'_, '_, '_>],
    seat: &Seat,
    done: &[Finding<'_>],
)
    requires places { map place_of jobs.now ≡ places_of full.now.index }
    requires seat { EachOnce (length jobs.now) seat.now.got }
    requires numbers { map number_of done.now ≡ numbers_from 0 (length jobs.now) }
    requires once { AreOnce (places_of full.now.index) full.now.recorded }
    ensures { Complete (map slot_of jobs.now) seat.now.got full.now.recorded (map number_of done.now) }
{}
