ghost use Rattle.day_files.specs.Again.{AgainHasKey};

/// A set that is written as one that is asked for again is read back as the key of the set that was delivered.
pub fn again_has_key()
    ensures { AgainHasKey }
{}
