//! Records of the places of an index, in whatever order they come.
ghost use Rattle.std.specs.Prelude.{◌≡◌, IfOk};

use crate::recording::place_at;
use crate::texts::{of_groups, of_sets};
use env_index::{Index, index_plain};
use hub_kinds::{Place, within_limit};
use number_register::{FullRegister, RecordFault, Records};
use std::alloc::Global;
use std::test::Fail;

/// The index of a text, settled without a fault.
pub fn settled(alloc: Global, text: &[u8]) -> Result<Index<'_>, Fail> {
    if !within_limit(text.len() as u64) {
        return Err("long text".into());
    }
    let mut index = index_plain(alloc, text)?;
    if index.interchanges().len() != 1 {
        return Err("not one interchange".into());
    }
    index.settle(&[None]);
    Ok(index)
}

/// Records these places of an index, by their numbers in its list, and hands over the whole.
fn recorded<'i, 'a>(
    alloc: Global,
    index: &'i Index<'a>,
    order: &[usize],
) -> Result<FullRegister<'i, 'a>, Fail>
    ensures { IfOk result (λ full. full.index ≡ index.entry.now) }
{
    let places = index.places(alloc)?;
    let mut records = Records::new(alloc, index)?;
    for k in order {
        if *k >= places.as_slice().len() {
            return Err("no such place".into());
        }
        if records.record(place_at(places.as_slice(), *k)).is_err() {
            return Err("refused".into());
        }
    }
    match records.finish() {
        Ok(full) => Ok(full),
        Err(_) => Err("short".into()),
    }
}

/// The first use of the number of each place.
fn first_uses<'i, 'a>(
    alloc: Global,
    index: &'i Index<'a>,
    full: &FullRegister<'i, 'a>,
) -> Result<Vec<Option<Place>>, Fail>
    requires { full.now.index ≡ index.now }
{
    let places = index.places(alloc)?;
    let mut found = Vec::new(alloc);
    for k in 0..places.as_slice().len() {
        found.push(full.earlier_of(place_at(places.as_slice(), k)))?;
    }
    Ok(found)
}

fn group(gs: u32) -> Place {
    Place { isa: 1, gs, st: 0 }
}

fn set(st: u32) -> Place {
    Place { isa: 1, gs: 1, st }
}

/// Numbers of the sets of a group, the order of recording (the interchange is 0, its group 1, its sets from 2 on), and the first use of
/// each set's number.
type Case = (
    &'static [&'static str],
    &'static [usize],
    &'static [Option<u32>],
);

const CASES: &[Case] = &[
    (&["0001", "0001"], &[0, 1, 2, 3], &[None, Some(1)]),
    (&["0001", "0001"], &[3, 2, 1, 0], &[None, Some(1)]),
    (&["0001", "0002"], &[3, 0, 2, 1], &[None, None]),
    (
        &["0003", "0002", "0003", "0002"],
        &[5, 0, 3, 1, 4, 2],
        &[None, None, Some(1), Some(2)],
    ),
    (&["", "", "1"], &[4, 3, 2, 1, 0], &[None, Some(1), None]),
];

fn expect(alloc: Global, case: &Case) -> Result<(), Fail> {
    let (numbers, order, wanted) = *case;
    let text = of_sets(alloc, numbers)?;
    let index = settled(alloc, text.as_slice())?;
    let full = recorded(alloc, &index, order)?;
    let found = first_uses(alloc, &index, &full)?;
    if found.len() != wanted.len().saturating_add(2) {
        return Err("another number of places".into());
    }
    for (k, first) in wanted.iter().enumerate() {
        let first = first.map(|st| set(st));
        if found.as_slice().get(k.saturating_add(2)).copied() != Some(first) {
            return Err(Fail::new(format!(in alloc; "{numbers:?}: {k}, {found:?}")?));
        }
    }
    Ok(())
}

#[test]
fn first_uses_of_set_numbers(rt: HostRuntime) -> Result<(), Fail> {
    for case in CASES {
        expect(rt.alloc(), case)?;
    }
    Ok(())
}

#[test]
fn a_place_is_recorded_once(rt: HostRuntime) -> Result<(), Fail> {
    let alloc = rt.alloc();
    let text = of_sets(alloc, &["0001"])?;
    let index = settled(alloc, text.as_slice())?;
    let places = index.places(alloc)?;
    assert_eq!(rt; places.as_slice().len(), 3);
    let place = place_at(places.as_slice(), 1);
    let mut records = Records::new(alloc, &index)?;
    assert_eq!(rt; records.record(place), Ok(()));
    assert_eq!(rt; records.record(place), Err(RecordFault::Already));
    assert_eq!(rt; records.recorded(), [place].as_slice());
    let Err(short) = records.finish() else {
        return Err("finished".into());
    };
    assert_eq!(rt; short.records.recorded(), [place].as_slice());
    Ok(())
}

/// The first use of the last group's number, where the groups are recorded from the last one on.
fn first_of_last(alloc: Global, numbers: &[u32]) -> Result<Option<Place>, Fail> {
    let text = of_groups(alloc, numbers)?;
    let index = settled(alloc, text.as_slice())?;
    let mut order = Vec::new(alloc);
    for k in 0..=numbers.len() {
        order.push(numbers.len() - k)?;
    }
    let full = recorded(alloc, &index, order.as_slice())?;
    let places = index.places(alloc)?;
    if numbers.is_empty() || places.as_slice().len() <= numbers.len() {
        return Err("no last group".into());
    }
    Ok(full.earlier_of(place_at(places.as_slice(), numbers.len())))
}

/// 100,000 groups in one interchange, whose numbers fall, or are two in turn, or one, recorded from the last one on.
#[test]
fn groups_from_the_last_one_on(rt: HostRuntime) -> Result<(), Fail> {
    let alloc = rt.alloc();
    let count = 100_000u32;
    let (mut falling, mut two, mut one) = (Vec::new(alloc), Vec::new(alloc), Vec::new(alloc));
    for k in 0..count {
        falling.push(count - k)?;
        two.push(k % 2 + 7)?;
        one.push(7)?;
    }
    assert_eq!(rt; first_of_last(alloc, falling.as_slice())?, None);
    assert_eq!(rt; first_of_last(alloc, two.as_slice())?, Some(group(2)));
    assert_eq!(rt; first_of_last(alloc, one.as_slice())?, Some(group(1)));
    Ok(())
}
