//! The limits that several crates ask (own).
ghost use Rattle.std.specs.Prelude.{◌↔◌, ◌≤◌, IsTrue};
ghost use Rattle.hub_kinds.specs.declared.limits.TheConstants.{LONGEST_TEXT};

/// How many elements a segment has at most in a guide.
pub const MOST_ELEMENTS: usize = 40;
/// How many components a composite element has at most in a guide.
pub const MOST_COMPONENTS: usize = 20;
/// How often an element may be repeated at most in a guide.
pub const MOST_REPEATS: u32 = 999;
/// How many segments and loops a guide has at most.
pub const MOST_NODES: usize = 2_000;
/// How many digits a control number has at most, read as a number (X12.5, ISA13 and IEA02; X12.6, GS06 and GE02).
pub const MOST_CONTROL_DIGITS: usize = 9;
/// How many digits the number of a group's sets has at most (X12.6, GE01).
pub const MOST_COUNT_DIGITS: usize = 6;
/// How many bytes an input has at most: its offsets fit 32 bits.
pub const LONGEST_TEXT: u64 = 4_294_967_295;

/// Whether an input of that many bytes isn't too long to be read.
pub fn within_limit(len: u64) -> bool
    ensures { IsTrue result ↔ (len ≤ LONGEST_TEXT) }
{
    len <= LONGEST_TEXT
}
