use crate::entry::{Entry, PartnerEntry};
use crate::tallies::Tallies;
use crate::tally::Tally;
use env_marks::Piecewise;
use hub_kinds::NoMemory;
use std::alloc::Global;

impl<'a> Piecewise for Tally<'a> {
    ghost use Rattle.count_numbers.specs.Tally.{joined};
    ghost use Rattle.count_numbers.specs.TallyPieces.{tally_between};
    ghost use Rattle.count_numbers.specs.TallyPieceLaws.{tally_piece_laws};

    type Item = Entry<'a>;

    type Under = ();

    ghost value = { tally_between };

    ghost joined = { joined };

    ghost laws = { tally_piece_laws };

    fn join(self, _alloc: Global, other: Tally<'a>) -> Result<Tally<'a>, NoMemory> {
        self.append(other)
    }
}

impl<'a> Piecewise for Tallies<'a> {
    ghost use Rattle.count_numbers.specs.Tallies.{all_joined, tallies_between};
    ghost use Rattle.count_numbers.specs.TalliesLaws.{tallies_piece_laws};

    type Item = PartnerEntry<'a>;

    /// How many partners there are.
    type Under = usize;

    ghost value = { tallies_between };

    ghost joined = { all_joined };

    ghost laws = { tallies_piece_laws };

    fn join(self, alloc: Global, other: Tallies<'a>) -> Result<Tallies<'a>, NoMemory> {
        self.append(alloc, other)
    }
}
