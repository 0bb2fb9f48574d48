use crate::run::RunKey;
use crate::tally::Tally;
use hub_kinds::NoMemory;
use std::alloc::Global;
use std::marker::Model;

/// What a stretch of a night leaves to be numbered for each partner, in the order of the setup.
#[derive(Debug, Drop)]
pub struct Tallies<'a> {
    list: Vec<Tally<'a>>,
}

impl<'a> Model for Tallies<'a> {
    ghost use Rattle.std.specs.Prelude.{List};
    ghost use Rattle.count_numbers.specs.Tally.{PartnerTally};

    ghost Value = { List PartnerTally };

    ghost view = { λ t. t.list.items };
}

impl<'a> Tallies<'a> {
    ghost use Rattle.std.specs.Prelude.{◌≡◌, ◌<◌, ◌++◌, ℕ, [], ◌∷◌, List, length, IfOk, OnOk, OnErr};
    ghost use Rattle.count_numbers.specs.declared.entry.PartnerEntry.{PartnerEntry};
    ghost use Rattle.count_numbers.specs.Tally.{Acknowledged, Delivered};
    ghost use Rattle.count_numbers.specs.Tallies.{tallies_of, all_joined};

    /// Tallies of nothing, for that many partners. The only error is out of memory.
    pub fn new(alloc: Global, partners: usize) -> Result<Tallies<'a>, NoMemory>
        ensures { IfOk result (λ tallies. tallies ≡ tallies_of partners []) }
    {
        let mut list = Vec::new(alloc);
        for _place in 0..partners {
            list.push(Tally::new(alloc))?;
        }
        Ok(Tallies { list })
    }

    /// The tally of each partner, in their order.
    pub fn list(&self) -> &[Tally<'a>]
        ensures { result.now ≡ self.now }
    {
        self.list.as_slice()
    }

    /// Counts one acknowledgment more of the partner at a place, and its group, where it has one.
    pub fn acknowledge(&mut self, partner: usize, has_group: bool)
        requires { partner < length self.old }
        ensures { (n : ℕ) (es : List PartnerEntry) → self.old ≡ tallies_of n es
            → self.new ≡ tallies_of n (es ++ record { partner = partner; entry = Acknowledged has_group } ∷ []) }
    {
        self.list[partner].acknowledge(has_group);
    }

    /// Counts one set more that is delivered to the partner at a place. The only error is out of memory, and then all is as it was.
    pub fn deliver(&mut self, partner: usize, key: RunKey<'a>) -> Result<(), NoMemory>
        requires { partner < length self.old }
        ensures counted { OnOk result ((n : ℕ) (es : List PartnerEntry) → self.old ≡ tallies_of n es
            → self.new ≡ tallies_of n (es ++ record { partner = partner; entry = Delivered key.entry } ∷ [])) }
        ensures kept { OnErr result (self.new ≡ self.old) }
    {
        self.list[partner].deliver(key)
    }

    /// The tallies of two stretches that follow each other, for as many partners as both have. The only error is out of memory.
    pub fn append(self, alloc: Global, back: Tallies<'a>) -> Result<Tallies<'a>, NoMemory>
        ensures { IfOk result (λ tallies. tallies ≡ all_joined self.entry back.entry) }
    {
        let mut list = Vec::new(alloc);
        for (tally, more) in self.list.into_iter().zip(back.list) {
            list.push(tally.append(more)?)?;
        }
        Ok(Tallies { list })
    }
}
