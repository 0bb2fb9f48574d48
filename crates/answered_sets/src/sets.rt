ghost use Rattle.std.specs.Prelude.{◌≡◌, ◌+◌, ◌<◌, ◌^◌, [], List, IfSome, None};
ghost use Rattle.std.specs.Iterator.{YieldsFirst, item_count};
ghost use Rattle.answered_sets.specs.Judged.{PlacedValue, all_sets};
ghost use Rattle.answered_sets.specs.Placed.{IsPlace, sets_left, sets_left_in};

use crate::judged::JudgedInterchange;
use crate::placed::PlacedSet;
use std::marker::Model;

/// Where a set is in its interchange: the number of its group and its own number in the group, both counted from 0.
#[derive(Clone, Copy, Debug)]
struct Place {
    group: usize,
    set: usize,
}

/// The place of the first set of an interchange that isn't before set `set` of group `group`.
fn first_from(judged: &JudgedInterchange<'_, '_>, group: usize, set: usize) -> Option<Place>
    ensures place { IfSome result (λ p. IsPlace judged.now p.group p.set) }
    ensures left { IfSome result (λ p. sets_left_in judged.now group set ≡ sets_left_in judged.now p.group p.set) }
    ensures room { IfSome result (λ p. p.set + 1 < 2 ^ 64) }
    ensures none { result ≡ None → sets_left_in judged.now group set ≡ [] }
{
    let interchange = judged.interchange();
    let mut place = Place { group, set };
    while place.group < interchange.group_count() {
        if place.set < interchange.group(place.group).set_count() {
            return Some(place);
        }
        place = Place {
            group: place.group + 1,
            set: 0,
        };
    }
    None
}

/// The sets (X12.6) of interchanges that are still to come, front to back.
#[derive(Drop)]
pub struct PlacedSets<'j, 'i, 'a> {
    interchanges: &'j [JudgedInterchange<'i, 'a>],
    at: usize,
    group: usize,
    set: usize,
}

impl<'j, 'i, 'a> Model for PlacedSets<'j, 'i, 'a> {
    ghost Value = { List PlacedValue };

    ghost view = { λ s. sets_left s.interchanges.now s.at s.group s.set };
}

/// All sets of interchanges, front to back.
pub fn all_sets<'j, 'i, 'a>(interchanges: &'j [JudgedInterchange<'i, 'a>]) -> PlacedSets<'j, 'i, 'a>
    ensures { result ≡ all_sets interchanges.entry.now }
{
    PlacedSets {
        interchanges,
        at: 0,
        group: 0,
        set: 0,
    }
}

impl<'j, 'i, 'a> Iterator for PlacedSets<'j, 'i, 'a> {
    type Item = PlacedSet<'j, 'i, 'a>;

    ghost next_gives = { YieldsFirst (λ rest. rest) };

    ghost remaining = { item_count (λ rest. rest) };

    fn next(&mut self) -> Option<PlacedSet<'j, 'i, 'a>> {
        while self.at < self.interchanges.len() {
            let judged = &self.interchanges[self.at];
            match first_from(judged, self.group, self.set) {
                None => {
                    self.at += 1;
                    self.group = 0;
                    self.set = 0;
                }
                Some(Place { group, set }) => {
                    self.group = group;
                    self.set = set + 1;
                    return Some(PlacedSet::new(judged, group, set));
                }
            }
        }
        None
    }
}
