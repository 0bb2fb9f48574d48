//! Where the parts of a header are.
ghost use Rattle.std.specs.Prelude.{◌≡◌, ◌≤◌, length};
ghost use Rattle.x12_bytes.specs.Header.{separator_place, field_of, width_of};
ghost use Rattle.x12_bytes.specs.declared.layout.TheConstants.{HEADER_LEN};

/// The length of a header in bytes, its terminator included.
pub const HEADER_LEN: usize = 106;

/// Where the element separator, the component separator, ISA11 and the terminator are.
pub const ELEMENT: usize = 3;

pub const COMPONENT: usize = 104;

pub const REPETITION: usize = 82;

pub const TERMINATOR: usize = 105;

/// Where the separator before field `k` is.
#[inline(always)]
pub fn separator_place(k: usize) -> usize
    requires from { 1 ≤ k }
    requires to { k ≤ 16 }
    ensures value { result ≡ separator_place k }
    ensures bound { result ≤ 103 }
{
    match k {
        1 => 3,
        2 => 6,
        3 => 17,
        4 => 20,
        5 => 31,
        6 => 34,
        7 => 50,
        8 => 53,
        9 => 69,
        10 => 76,
        11 => 81,
        12 => 83,
        13 => 89,
        14 => 99,
        15 => 101,
        _ => 103,
    }
}

/// How wide field `k` is.
#[inline(always)]
pub fn width_of(k: usize) -> usize
    requires from { 1 ≤ k }
    requires to { k ≤ 16 }
    ensures value { result ≡ width_of k }
    ensures bound { result ≤ 15 }
{
    match k {
        1 => 2,
        2 => 10,
        3 => 2,
        4 => 10,
        5 => 2,
        6 => 15,
        7 => 2,
        8 => 15,
        9 => 6,
        10 => 4,
        11 => 1,
        12 => 5,
        13 => 9,
        14 => 1,
        15 => 1,
        _ => 1,
    }
}

/// Field `k` of a header's bytes.
#[inline(always)]
pub(crate) fn field(bytes: &[u8], k: usize) -> &[u8]
    requires len { length bytes.now ≡ HEADER_LEN }
    requires from { 1 ≤ k }
    requires to { k ≤ 16 }
    ensures value { result.now ≡ field_of bytes.now k }
    ensures len { length result.now ≡ width_of k }
{
    match k {
        1 => &bytes[4..6],
        2 => &bytes[7..17],
        3 => &bytes[18..20],
        4 => &bytes[21..31],
        5 => &bytes[32..34],
        6 => &bytes[35..50],
        7 => &bytes[51..53],
        8 => &bytes[54..69],
        9 => &bytes[70..76],
        10 => &bytes[77..81],
        11 => &bytes[82..83],
        12 => &bytes[84..89],
        13 => &bytes[90..99],
        14 => &bytes[100..101],
        15 => &bytes[102..103],
        _ => &bytes[104..105],
    }
}
