//! What holds of all that is done, whoever did it.
ghost use Rattle.std.specs.Prelude.{ℕ, List, Option};
ghost use Rattle.hub_kinds.specs.declared.place.Place.{Place};
ghost use Rattle.work_core.specs.Complete.{AreSame, Complete};

/// All complete lists of some jobs, of any workers in any order, leave the same places recorded and the same jobs finished.
pub fn complete_is_one()
    ensures { (jobs : List (Option Place)) (claimed claimed' : List ℕ) (recorded recorded' : List Place) (finished finished' : List ℕ)
        → Complete jobs claimed recorded finished → Complete jobs claimed' recorded' finished'
        → AreSame recorded finished recorded' finished' }
{}
