//! A night that is shared: by each pair of workers and pieces, in windows of few bytes, and cut twice at each of its bytes, so that every
//! second piece is empty.
use super::hostile::are_same;
use super::pieces::ORDER_IN_ITS_INTERCHANGE;
use super::runs::{STREAMS, plain_night, shared_night, stream_night};
use super::setups::two_partners;
use cut_plan::Cuts;
use hub_run::{OpenGate, run_night};
use moment::At;
use std::test::Fail;

const WORKERS: &[u64] = &[1, 2, 7, 64];

const PIECES: &[usize] = &[1, 53, 106];

#[test]
fn each_pair_of_workers_and_pieces(rt: HostRuntime) -> Result<(), Fail> {
    let setup = two_partners(rt.alloc())?;
    let wanted = plain_night(rt.alloc(), &setup, ORDER_IN_ITS_INTERCHANGE)?;
    for workers in WORKERS {
        for piece in PIECES {
            let night = shared_night(&rt, &setup, ORDER_IN_ITS_INTERCHANGE, *workers, *piece)?;
            assert!(rt; are_same(rt.alloc(), &wanted, &night)?);
        }
    }
    Ok(())
}

#[test]
fn each_window(rt: HostRuntime) -> Result<(), Fail> {
    let setup = two_partners(rt.alloc())?;
    let wanted = plain_night(rt.alloc(), &setup, ORDER_IN_ITS_INTERCHANGE)?;
    for (window, workers, piece) in STREAMS {
        let night = stream_night(
            &rt,
            &setup,
            ORDER_IN_ITS_INTERCHANGE,
            *window,
            *workers,
            *piece,
        )?;
        assert!(rt; are_same(rt.alloc(), &wanted, &night)?);
    }
    Ok(())
}

#[test]
fn cut_twice_at_each_byte(rt: HostRuntime) -> Result<(), Fail> {
    let alloc = rt.alloc();
    let setup = two_partners(alloc)?;
    let at = At::read(b"202603011530").ok_or("no moment")?;
    let text = ORDER_IN_ITS_INTERCHANGE;
    let wanted = plain_night(alloc, &setup, text)?;
    let mut places = Vec::new(alloc);
    for place in 0..text.len() {
        places.push(place)?;
        places.push(place)?;
    }
    places.push(text.len())?;
    places.push(text.len())?;
    assert_eq!(rt; places.len(), 474);
    let cuts = Cuts::new(alloc, text.len(), places.as_slice())?;
    for workers in [1u64, 7] {
        let night = run_night(&rt, alloc, text, &setup, &at, workers, &cuts, &OpenGate)?;
        assert!(rt; are_same(rt.alloc(), &wanted, &night)?);
    }
    Ok(())
}
