//! That workers do the work of a night together, and of a stream before more of it is read.
use crate::pieces::ORDER_IN_ITS_INTERCHANGE;
use crate::setups::two_partners;
use cut_plan::Cuts;
use hub_run::{Gate, Source, SourceFault, run_night, run_stream};
use moment::At;
use std::alloc::Global;
use std::sync::Wait;
use std::sync::atomic::{AtomicU64, Ordering};
use std::test::Fail;
use std::thread;
use std::time::{Clock, Duration};
use trial_streams::sources::Memory;

/// A source that counts how often it is read.
#[derive(Drop)]
struct Counted<'r, S> {
    source: S,
    reads: &'r AtomicU64,
}

impl<'r, S: Source> Source for Counted<'r, S> {
    ghost remaining = { λ c. S.remaining c.source };

    ghost faults = { λ c. S.faults c.source };

    ghost interruptions = { λ c. S.interruptions c.source };

    ghost longest = { λ c. S.longest c.source };

    ghost given = { λ c. S.given c.source };

    fn read(&mut self, buf: &mut [u8]) -> Result<usize, SourceFault> {
        self.reads.fetch_add(1, Ordering::SeqCst);
        self.source.read(buf)
    }
}

/// It keeps how often the text was read when the first worker came.
#[derive(Drop)]
struct First<'a> {
    reads: &'a AtomicU64,
    seen: AtomicU64,
}

impl<'a> Gate for First<'a> {
    fn enter<R: Wait + Clock>(&self, _rt: &R, _job: u64) {
        if self.seen.load(Ordering::SeqCst) == 0 {
            self.seen
                .store(self.reads.load(Ordering::SeqCst), Ordering::SeqCst);
        }
    }

    fn answered<R: Wait + Clock, D>(&self, _rt: &R, _job: u64, _done: &D) {}
}

/// How often a worker looks, a millisecond between.
const LOOKS: u64 = 10_000;

/// Waits until a count has come so far.
fn has_come<R: Wait + Clock>(rt: &R, count: &AtomicU64, wanted: u64) -> bool {
    for _ in 0..LOOKS {
        if count.load(Ordering::SeqCst) >= wanted {
            return true;
        }
        thread::sleep(rt, Duration::from_millis(1));
    }
    false
}

/// Jobs 0 and 1 of each phase come together, before and after.
#[derive(Drop)]
struct Together {
    entered: AtomicU64,
    left: AtomicU64,
    missed: AtomicU64,
}

impl Together {
    fn meet<R: Wait + Clock>(&self, rt: &R, count: &AtomicU64, job: u64) {
        if job > 1 {
            return;
        }
        let came = count.fetch_add(1, Ordering::SeqCst);
        if !has_come(rt, count, (came | 1).wrapping_add(1)) {
            self.missed.fetch_add(1, Ordering::SeqCst);
        }
    }
}

impl Gate for Together {
    fn enter<R: Wait + Clock>(&self, rt: &R, job: u64) {
        self.meet(rt, &self.entered, job);
    }

    fn answered<R: Wait + Clock, D>(&self, rt: &R, job: u64, _done: &D) {
        self.meet(rt, &self.left, job);
    }
}

/// An order of ACME, twice.
fn two_orders(alloc: Global) -> Result<Vec<u8>, Fail> {
    let mut text = Vec::new(alloc);
    text.extend_from_slice(ORDER_IN_ITS_INTERCHANGE)?;
    text.extend_from_slice(ORDER_IN_ITS_INTERCHANGE)?;
    Ok(text)
}

#[test]
fn two_workers_come_together_in_each_phase(rt: HostRuntime) -> Result<(), Fail> {
    let alloc = rt.alloc();
    let setup = two_partners(alloc)?;
    let at = At::read(b"202603011530").ok_or("no moment")?;
    let text = two_orders(alloc)?;
    let cuts = Cuts::every(alloc, text.len(), 236)?;
    for workers in [2u64, 64] {
        let gate = Together {
            entered: AtomicU64::new(0),
            left: AtomicU64::new(0),
            missed: AtomicU64::new(0),
        };
        run_night(
            &rt,
            alloc,
            text.as_slice(),
            &setup,
            &at,
            workers,
            &cuts,
            &gate,
        )?;
        assert_eq!(rt; gate.missed.load(Ordering::SeqCst), 0);
        assert_eq!(rt; gate.entered.load(Ordering::SeqCst), 8);
        assert_eq!(rt; gate.left.load(Ordering::SeqCst), 8);
    }
    Ok(())
}

#[test]
fn a_window_is_worked_on_before_the_next_is_read(rt: HostRuntime) -> Result<(), Fail> {
    let alloc = rt.alloc();
    let setup = two_partners(alloc)?;
    let at = At::read(b"202603011530").ok_or("no moment")?;
    let text = two_orders(alloc)?;
    let reads = AtomicU64::new(0);
    let mut source = Counted {
        source: Memory::new(text.as_slice()),
        reads: &reads,
    };
    let gate = First {
        reads: &reads,
        seen: AtomicU64::new(0),
    };
    run_stream(&rt, alloc, &mut source, 236, 53, &setup, &at, 2, &gate)?;
    assert_eq!(rt; gate.seen.load(Ordering::SeqCst), 1);
    assert!(rt; reads.load(Ordering::SeqCst) > 2);
    Ok(())
}
