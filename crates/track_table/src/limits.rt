/// How many bytes of GS02 and of GS03 are shown at most, since each row of a group repeats them (own).
pub const MOST_SHOWN: usize = 99;
