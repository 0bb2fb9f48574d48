ghost use Rattle.std.specs.Prelude.{◌≡◌, ◌≤◌};
ghost use Rattle.count_numbers.specs.Num.{num};
ghost use Rattle.count_numbers.specs.declared.number.TheConstants.{GREATEST_NUMBER};

/// The greatest control number; 1 follows it.
pub const GREATEST_NUMBER: u32 = 999_999_999;

/// The control number that comes `k` after a first one; 1 follows 999,999,999 (X12.5, interchange control number;
/// X12.6, group control number and transaction set control number; the order is own).
pub fn num(start: u32, k: u64) -> u32
    requires least { 1 ≤ start }
    requires most { start ≤ GREATEST_NUMBER }
    ensures value { result ≡ num start k }
    ensures least { 1 ≤ result }
    ensures most { result ≤ GREATEST_NUMBER }
{
    let count = u64::from(GREATEST_NUMBER);
    let ahead = u64::from(start - 1) + k % count;
    1 + (ahead % count) as u32
}
