ghost use Rattle.std.specs.Prelude.{◌≡◌, Option, None, MatchResult, IfOk, IfSome, map};
ghost use Rattle.night_shelf.specs.Shelf as states;

use crate::night::NightFile;
use hub_kinds::{NoMemory, Text};

/// Why a shelf didn't do what it was asked for.
#[derive(Clone, Copy, Debug, PartialEq, Eq)]
pub enum ShelfFault {
    /// Memory was refused.
    Memory,
    /// The system refused a call, or failed in it.
    Failed,
}

impl From<NoMemory> for ShelfFault {
    fn from(_error: NoMemory) -> ShelfFault {
        ShelfFault::Memory
    }
}

/// A place that keeps nights. Nights are in one folder, and tonight is in another one, of which nobody sends.
pub trait Shelf {
    /// What is known of the place.
    ghost place: { Self → Option states.Place } = { λ _. None };

    /// Removes the folder of tonight, with all that is in it, if there is one.
    fn clear(&mut self) -> Result<(), ShelfFault>
        ensures { states.Changes states.KeepsNights (place self.old) (place self.new) };

    /// Makes the folder of tonight. It fails if there is one.
    fn make(&mut self) -> Result<(), ShelfFault>
        ensures { MatchResult result (λ _. states.Changes states.IsMade (place self.old) (place self.new))
            (λ _. states.Changes states.KeepsNights (place self.old) (place self.new)) };

    /// Writes `file` into the folder of tonight, and syncs it.
    fn put(&mut self, file: &NightFile) -> Result<(), ShelfFault>
        ensures { MatchResult result (λ _. states.Changes (states.IsPut file.now) (place self.old) (place self.new))
            (λ _. states.Changes states.KeepsNights (place self.old) (place self.new)) };

    /// Syncs the folder of tonight.
    fn sync_tonight(&mut self) -> Result<(), ShelfFault>
        ensures { MatchResult result (λ _. states.Changes states.IsSynced (place self.old) (place self.new))
            (λ _. states.Changes states.KeepsNights (place self.old) (place self.new)) };

    /// Renames the folder of tonight: it becomes the night `name`.
    fn rename(&mut self, name: &[u8]) -> Result<(), ShelfFault>
        ensures { MatchResult result (λ _. states.Changes (states.IsNamed name.now) (place self.old) (place self.new))
            (λ _. states.Changes (states.MayName name.now) (place self.old) (place self.new)) };

    /// Syncs the folder of nights.
    fn sync_nights(&mut self) -> Result<(), ShelfFault>
        ensures { MatchResult result (λ _. states.Changes states.IsSettled (place self.old) (place self.new))
            (λ _. states.Changes states.KeepsNights (place self.old) (place self.new)) };

    /// The names of the nights.
    fn nights(&self) -> Result<Vec<Text>, ShelfFault>
        ensures { IfOk result (λ names. IfSome (place self.now) (λ known. names.items ≡ map (λ night. night.name) known.named)) };
}
