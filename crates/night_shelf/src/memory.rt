ghost use Rattle.std.specs.Prelude.{◌≡◌, ◌++◌, ◌∷◌, [], IfOk, MatchResult, OnOk, map};
ghost use Rattle.night_shelf.specs.declared.night.KeptNight.{KeptNight};

use crate::night::{KeptNight, NightFile};
use crate::shelf::{Shelf, ShelfFault};
use hub_kinds::{Items, NoMemory, Text, copy_text};
use std::alloc::Global;
use std::mem;

/// A shelf in memory. A stop leaves the nights that are on its disk, or those with the ones that were named since.
#[derive(Drop)]
pub struct MemoryShelf {
    alloc: Global,
    /// The nights that are on the disk.
    settled: Vec<KeptNight>,
    /// The nights that were named since.
    fresh: Vec<KeptNight>,
    tonight: Vec<NightFile>,
    is_made: bool,
    is_on_disk: bool,
}

impl MemoryShelf {
    ghost use Rattle.std.specs.Prelude.{◌≡◌, ◌∷◌, [], Some, false};

    /// A shelf without nights.
    pub fn new(alloc: Global) -> MemoryShelf
        ensures { ⟦<MemoryShelf as Shelf>⟧.place result
            ≡ Some (record { named = []; tonight = []; is_on_disk = false; left = [] ∷ [] ∷ [] }) }
    {
        MemoryShelf {
            alloc,
            settled: Vec::new(alloc),
            fresh: Vec::new(alloc),
            tonight: Vec::new(alloc),
            is_made: false,
            is_on_disk: false,
        }
    }
}

impl Shelf for MemoryShelf {
    ghost use Rattle.std.specs.Prelude.{Some, ◌++◌, ◌∷◌, []};

    ghost place = { λ m. Some (record {
      named = m.settled.items ++ m.fresh.items;
      tonight = m.tonight.items;
      is_on_disk = m.is_on_disk;
      left = m.settled.items ∷ (m.settled.items ++ m.fresh.items) ∷ [];
    }) };

    fn clear(&mut self) -> Result<(), ShelfFault> {
        self.tonight = Vec::new(self.alloc);
        self.is_made = false;
        self.is_on_disk = false;
        Ok(())
    }

    fn make(&mut self) -> Result<(), ShelfFault> {
        if self.is_made {
            return Err(ShelfFault::Failed);
        }
        self.tonight = Vec::new(self.alloc);
        self.is_made = true;
        self.is_on_disk = false;
        Ok(())
    }

    fn put(&mut self, file: &NightFile) -> Result<(), ShelfFault> {
        let copy = copy_file(self.alloc, file)?;
        self.is_on_disk = false;
        match self.tonight.push(copy) {
            Ok(()) => Ok(()),
            Err(_) => Err(ShelfFault::Memory),
        }
    }

    fn sync_tonight(&mut self) -> Result<(), ShelfFault> {
        self.is_on_disk = true;
        Ok(())
    }

    fn rename(&mut self, name: &[u8]) -> Result<(), ShelfFault> {
        let name = copy_text(self.alloc, name)?;
        let files = mem::replace(&mut self.tonight, Vec::new(self.alloc));
        self.is_made = false;
        push_night(
            &mut self.fresh,
            KeptNight {
                name,
                files: Items::from_vec(files),
            },
        )
    }

    fn sync_nights(&mut self) -> Result<(), ShelfFault> {
        match self.settled.append(&mut self.fresh) {
            Ok(()) => Ok(()),
            Err(_) => Err(ShelfFault::Memory),
        }
    }

    fn nights(&self) -> Result<Vec<Text>, ShelfFault> {
        let mut names = Vec::new(self.alloc);
        push_names(self.alloc, &mut names, self.settled.as_slice())?;
        push_names(self.alloc, &mut names, self.fresh.as_slice())?;
        Ok(names)
    }
}

fn copy_file(alloc: Global, file: &NightFile) -> Result<NightFile, NoMemory>
    ensures { IfOk result (λ copy. copy ≡ file.now) }
{
    Ok(NightFile {
        name: copy_text(alloc, file.name.as_slice())?,
        bytes: copy_text(alloc, file.bytes.as_slice())?,
    })
}

fn push_names(alloc: Global, names: &mut Vec<Text>, nights: &[KeptNight]) -> Result<(), NoMemory>
    ensures { OnOk result (names.new.items ≡ names.old.items ++ map (λ (night : KeptNight). night.name) nights.now) }
{
    for i in 0..nights.len() {
        names.push(copy_text(alloc, nights[i].name.as_slice())?)?;
    }
    Ok(())
}

/// Adds `night` to `fresh`. If memory is refused, `fresh` stays as it was.
fn push_night(fresh: &mut Vec<KeptNight>, night: KeptNight) -> Result<(), ShelfFault>
    ensures { MatchResult result (λ _. fresh.new.items ≡ fresh.old.items ++ night ∷ []) (λ _. fresh.new.items ≡ fresh.old.items) }
{
    match fresh.push(night) {
        Ok(()) => Ok(()),
        Err(_) => Err(ShelfFault::Memory),
    }
}
