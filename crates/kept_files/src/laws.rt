ghost use Rattle.kept_files.specs.Laws.{TakenHasEach, TakenHasHeader};

/// Each key that was delivered has its interchange among those that were taken: a set whose interchange no table of taken interchanges has
/// was delivered in none of these nights.
pub fn taken_has_each()
    ensures { TakenHasEach }
{}

/// The interchange in a set's key has the elements of the header that the key was made of.
pub fn taken_has_header()
    ensures { TakenHasHeader }
{}
