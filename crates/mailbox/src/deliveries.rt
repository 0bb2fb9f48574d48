use answered_sets::PlacedSet;
use hub_kinds::NoMemory;
use std::alloc::Global;
use std::marker::Model;

/// The sets that are delivered to one partner, front to back.
#[derive(Drop)]
pub struct Delivered<'j, 'i, 'a> {
    sets: Vec<PlacedSet<'j, 'i, 'a>>,
}

/// The sets that are delivered to each partner, by the partners' places in the setup.
pub type Deliveries<'j, 'i, 'a> = Vec<Delivered<'j, 'i, 'a>>;

impl<'j, 'i, 'a> Model for Delivered<'j, 'i, 'a> {
    ghost use Rattle.std.specs.Prelude.{List};
    ghost use Rattle.answered_sets.specs.Judged.{PlacedValue};

    ghost Value = { List PlacedValue };

    ghost view = { λ d. d.sets.items };
}

impl<'j, 'i, 'a> Delivered<'j, 'i, 'a> {
    ghost use Rattle.std.specs.Prelude.{◌≡◌, ◌++◌, ◌∷◌, [], OnOk};

    /// None yet.
    pub(crate) fn none(alloc: Global) -> Delivered<'j, 'i, 'a>
        ensures { result ≡ [] }
    {
        Delivered {
            sets: Vec::new(alloc),
        }
    }

    /// Adds a set after the others.
    pub(crate) fn add(&mut self, placed: &PlacedSet<'j, 'i, 'a>) -> Result<(), NoMemory>
        ensures { OnOk result (self.new ≡ self.old ++ placed.now ∷ []) }
    {
        self.sets.push(placed.again())?;
        Ok(())
    }

    /// Adds sets after the others.
    pub(crate) fn append(&mut self, more: Delivered<'j, 'i, 'a>) -> Result<(), NoMemory>
        ensures { OnOk result (self.new ≡ self.old ++ more.entry) }
    {
        let Delivered { mut sets } = more;
        self.sets.append(&mut sets)?;
        Ok(())
    }

    /// The sets.
    pub fn sets(&self) -> &[PlacedSet<'j, 'i, 'a>]
        ensures { result.now ≡ self.now }
    {
        self.sets.as_slice()
    }
}
