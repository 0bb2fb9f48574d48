ghost use Rattle.std.specs.Prelude.{◌+◌, ◌++◌, ℕ, List, length};
ghost use Rattle.env_index.specs.Words.{Extent, IndexValue, IsIndex};
ghost use Rattle.partner_setup.specs.Setup.{SetupValue};
ghost use Rattle.night_batches.specs.declared.night.Night.{Night};
ghost use Rattle.night_batches.specs.Night.{IsNight};
ghost use Rattle.whole_interchanges.specs.Batches.{ChainUpTo};
ghost use Rattle.night_stream.specs.UpTo.{IsBatchDone, IsBatchOf, IsNightUpTo, IsWhole, NightSoFar, behind_batch, none_yet};
ghost use Rattle.night_batches.specs.Writing.{IsClosedBy, WritingValue};

/// A theorem, with nothing to run: a night continues batch by batch, and after the last batch it is what is known of the whole text; a
/// batch whose index is written, settled by the numbers seen so far, shows all that it has to show.
pub fn nights_go_on()
    ensures starts { (text : List ℕ) (setup : SetupValue) (at : List ℕ) → IsNightUpTo text setup at 0 (none_yet setup) }
    ensures steps { (before batch behind : List ℕ) (setup : SetupValue) (at : List ℕ) (old new : NightSoFar) (xs : List Extent)
        → ChainUpTo (batch ++ behind) 0 (length batch) xs
        → IsNightUpTo (before ++ (batch ++ behind)) setup at (length before) old
        → IsBatchDone batch setup at (length before) old new
        → IsNightUpTo (before ++ (batch ++ behind)) setup at (length before + length batch) new }
    ensures shown { (batch : List ℕ) (setup : SetupValue) (at : List ℕ) (base : ℕ) (old : NightSoFar) (index : IndexValue)
        (w : WritingValue) (written : IsBatchOf batch setup at base old index w) → IsIndex batch index
        → IsBatchDone batch setup at base old (behind_batch base old index written.known w) }
    ensures ends { (text : List ℕ) (setup : SetupValue) (at : List ℕ) (night : NightSoFar)
        → IsNightUpTo text setup at (length text) night → IsWhole text setup at night }
{}

/// A theorem, with nothing to run: after the last batch the night of the whole text is what was carried, with the envelopes of the
/// mailboxes, the total and the next counters.
pub fn batches_give_the_night()
    ensures { (text : List ℕ) (setup : SetupValue) (at : List ℕ) (n : NightSoFar) (night : Night)
        → IsNightUpTo text setup at (length text) n → IsClosedBy setup at n.writing night → IsNight text setup at night }
{}
