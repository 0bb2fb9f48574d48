ghost use Rattle.std.specs.Prelude.{◌≡◌, ◌++◌, [], ◌∷◌, List, IfOk, OnOk};
ghost use Rattle.set_answers.specs.Known.{HasExactly, is_greater};

use hub_kinds::NoMemory;
use std::alloc::Global;
use std::collections::BTreeSet;

/// The numbers so far. Numbers that rise are only kept; from the first that doesn't on, each is looked up in an ordered set, so
/// that the cost follows the bytes whatever numbers somebody chooses.
#[derive(Drop)]
pub(crate) struct Seen<K: Ord + Copy + Drop> {
    alloc: Global,
    /// The numbers, while each is greater than those before it.
    rising: Vec<K>,
    /// The last of these.
    greatest: Option<K>,
    /// The numbers, from the first on that didn't rise.
    ordered: Option<BTreeSet<K>>,
}

impl<K: Ord + Copy + Drop> Seen<K> {
    ghost use Rattle.set_answers.specs.Known.{Knows, is_known};

    /// None yet.
    pub(crate) fn new(alloc: Global) -> Seen<K>
        ensures { Knows K.cmp result [] }
    {
        Seen {
            alloc,
            rising: Vec::new(alloc),
            greatest: None,
            ordered: None,
        }
    }

    /// Adds a number; answers whether it was there.
    pub(crate) fn add(&mut self, number: K) -> Result<bool, NoMemory>
        ensures earlier { IfOk result (λ earlier. (numbers : List _) → Knows K.cmp self.old numbers
            → earlier ≡ is_known K.cmp number numbers) }
        ensures known { OnOk result ((numbers : List _) → Knows K.cmp self.old numbers
            → Knows K.cmp self.new (numbers ++ number ∷ [])) }
    {
        match &mut self.ordered {
            Some(ordered) => Ok(!ordered.insert(number)?),
            None if is_greater(number, self.greatest) => {
                self.rising.push(number)?;
                self.greatest = Some(number);
                Ok(false)
            }
            None => {
                let mut ordered = ordered(self.alloc, self.rising.as_slice())?;
                let earlier = !ordered.insert(number)?;
                self.ordered = Some(ordered);
                self.rising = Vec::new(self.alloc);
                Ok(earlier)
            }
        }
    }
}

/// Whether a number is greater than the greatest, if there is one.
fn is_greater<K: Ord + Copy + Drop>(number: K, greatest: Option<K>) -> bool
    ensures { result ≡ is_greater K.cmp number greatest }
{
    match greatest {
        None => true,
        Some(greatest) => greatest.cmp(&number).is_lt(),
    }
}

/// The numbers as an ordered set.
fn ordered<K: Ord + Copy + Drop>(alloc: Global, numbers: &[K]) -> Result<BTreeSet<K>, NoMemory>
    ensures { IfOk result (λ ordered. HasExactly K.cmp ordered numbers.now) }
{
    let mut ordered = BTreeSet::new(alloc);
    for index in 0..numbers.len() {
        ordered.insert(numbers[index])?;
    }
    Ok(ordered)
}
