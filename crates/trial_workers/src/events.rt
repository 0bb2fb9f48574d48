//! Events, and what each does to the jobs of workers.
use hub_kinds::Place;
use std::alloc::Global;
use std::test::Fail;
use work_core::{CoreState, Event, Stepped, run_events};

const PLACE: Place = Place {
    isa: 1,
    gs: 0,
    st: 0,
};

/// Events of one worker with one job that has a place, which of them are taken, and whether all is done then.
type Case = (&'static [Event], &'static [Stepped], bool);

const CASES: &[Case] = &[
    (
        &[
            Event::Claim(0),
            Event::Record(0, PLACE),
            Event::Finish(0, 0),
        ],
        &[Stepped::Took, Stepped::Took, Stepped::Took],
        true,
    ),
    (&[Event::Finish(0, 0)], &[Stepped::Idle], false),
    (
        &[Event::Claim(0), Event::Finish(0, 0)],
        &[Stepped::Took, Stepped::Idle],
        false,
    ),
    (
        &[Event::Claim(0), Event::Refused(0), Event::Claim(0)],
        &[Stepped::Took, Stepped::Took, Stepped::Idle],
        false,
    ),
    (
        &[Event::Claim(1), Event::Record(0, PLACE)],
        &[Stepped::Idle, Stepped::Idle],
        false,
    ),
];

fn jobs(alloc: Global) -> Result<Vec<Option<Place>>, Fail> {
    Ok(vec![in alloc; Some(PLACE)]?)
}

fn expect(alloc: Global, case: &Case) -> Result<(), Fail> {
    let (events, wanted, is_done) = *case;
    let mut state = CoreState::new(alloc, jobs(alloc)?, 1)?;
    for i in 0..events.len().min(wanted.len()) {
        let found = state.step(events[i])?;
        if found != wanted[i] {
            return Err(Fail::new(format!(in alloc; "{events:?}: {i} is {found:?}")?));
        }
    }
    if state.is_complete() != is_done
        || run_events(alloc, jobs(alloc)?, 1, events)?.is_complete() != is_done
    {
        return Err(Fail::new(format!(in alloc; "{events:?}: not {is_done}")?));
    }
    Ok(())
}

#[test]
fn events_of_one_worker(rt: HostRuntime) -> Result<(), Fail> {
    for case in CASES {
        expect(rt.alloc(), case)?;
    }
    Ok(())
}

/// Two jobs without a place, done by two workers in turn.
#[test]
fn jobs_without_a_place(rt: HostRuntime) -> Result<(), Fail> {
    let alloc = rt.alloc();
    let events = [
        Event::Claim(1),
        Event::Claim(0),
        Event::Finish(0, 1),
        Event::Finish(1, 0),
        Event::Claim(0),
        Event::Claim(1),
    ];
    let state = run_events(alloc, vec![in alloc; None, None]?, 2, &events)?;
    assert!(rt; state.is_complete());
    Ok(())
}
