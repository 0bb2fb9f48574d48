ghost use Rattle.std.specs.Prelude.{◌≡◌, ◌<◌, map, vec_len, Some, slice_get};
ghost use Rattle.claim_desk.specs.Seats.{EachOnce};
ghost use Rattle.job_pool.specs.Work.{numbers_from, IsHome, StayHome};

use crate::task::Task;

// The answers in the order of their jobs: each is exchanged with the one at its own place.
pub(crate) fn in_order<T: Task>(done: Vec<T::Done>, count: u64) -> Vec<T::Done>
    requires { EachOnce count (map T.number_of done.items) }
    ensures { map T.number_of result.items ≡ numbers_from 0 count }
{
    let mut done = done;
    for place in 0..done.len() {
        bring::<T>(&mut done, place, count);
    }
    done
}

// Brings the answer to the job numbered `place` there.
fn bring<T: Task>(done: &mut Vec<T::Done>, place: usize, count: u64)
    requires once { EachOnce count (map T.number_of done.old.items) }
    requires place { place < vec_len done.old }
    ensures once { EachOnce count (map T.number_of done.new.items) }
    ensures len { vec_len done.new ≡ vec_len done.old }
    ensures here { IsHome (map T.number_of done.new.items) place }
    ensures kept { StayHome (map T.number_of done.old.items) (map T.number_of done.new.items) }
{
    let mut number = number_at::<T>(done, place);
    while number != place {
        done.swap(place, number);
        number = number_at::<T>(done, place);
    }
}

// The number of the job that the answer at `place` is to.
fn number_at<T: Task>(done: &Vec<T::Done>, place: usize) -> usize
    requires { place < vec_len done.now }
    ensures { slice_get (map T.number_of done.now.items) place ≡ Some result }
{
    T::number(&done[place]) as usize
}
