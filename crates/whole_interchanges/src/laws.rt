ghost use Rattle.std.specs.Prelude.{◌≡◌, ◌≤◌, ◌+◌, ◌++◌, ℕ, List, take, length, map, true, false, []};
ghost use Rattle.x12_bytes.specs.HeaderTest.{is_head};
ghost use Rattle.env_index.specs.Words.{Extent, ChainFrom, IndexEntry, IndexValue, IsIndex};
ghost use Rattle.whole_interchanges.specs.Begun.{may_begin};
ghost use Rattle.whole_interchanges.specs.Batches.{ChainUpTo, WholeUpTo};
ghost use Rattle.whole_interchanges.specs.Moved.{IsIndexUpTo, moved_entry};

/// A theorem, with nothing to run: a header whose last bytes aren't read yet shows in those that are.
pub fn header_shows_early()
    ensures { (read more : List ℕ) (at : ℕ) → at ≤ length read → is_head read at ≡ false → may_begin read at ≡ false
        → is_head (read ++ more) at ≡ false }
{}

/// A theorem, with nothing to run: interchanges that are whole by what is read of a text are the text's, whatever follows; what is read
/// up to an offset at which none is open has just these, and those that follow there continue with them.
pub fn whole_stays_whole()
    ensures whole { (read more : List ℕ) (from to : ℕ) (xs : List Extent) → WholeUpTo read from to xs
        → ChainUpTo (read ++ more) from to xs }
    ensures alone { (text : List ℕ) (from to : ℕ) (xs : List Extent) → to ≤ length text → ChainUpTo text from to xs
        → ChainFrom (take to text) from xs }
    ensures further { (text : List ℕ) (from to : ℕ) (xs ys : List Extent) → ChainUpTo text from to xs → ChainFrom text to ys
        → ChainFrom text from (xs ++ ys) }
{}

/// A theorem, with nothing to run: the index of a text is that of its batches, one after the other, each entry moved by the bytes before
/// its batch, where no interchange is open between two of them.
pub fn batches_are_the_index()
    ensures starts { (text : List ℕ) → IsIndexUpTo text 0 [] 0 }
    ensures steps { (before text : List ℕ) (done : List IndexEntry) (outside c : ℕ) (xs : List Extent) (index : IndexValue)
        → IsIndexUpTo (before ++ text) (length before) done outside → c ≤ length text → ChainUpTo text 0 c xs
        → IsIndex (take c text) index
        → IsIndexUpTo (before ++ text) (length before + c) (done ++ map (moved_entry (length before)) index.entries)
        (outside + index.outside) }
    ensures ends { (text : List ℕ) (done : List IndexEntry) (outside : ℕ) → IsIndexUpTo text (length text) done outside
        → IsIndex text (record { text = text; entries = done; outside = outside }) }
{}
