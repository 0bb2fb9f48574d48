//! Numbers as the index has them, by place, counted from 0.
ghost use Rattle.std.specs.Prelude.{◌≡◌, ◌<◌, IfSome, Some, length, map, slice_get};
ghost use Rattle.number_register.specs.Slots.{code_in, code_of, group_code, groups_of, interchange_code, set_control, sets_of};

use crate::key::InterchangeKey;
use env_index::{GroupEnvelope, Index};
use hub_kinds::{MOST_CONTROL_DIGITS, read_number};

pub(crate) fn interchange_key<'a>(index: &Index<'a>, n: usize) -> InterchangeKey<'a>
    requires { n < length index.now.entries }
    ensures { slice_get (map interchange_code index.now.entries) n ≡ Some (code_in result) }
{
    let header = index.interchanges()[n].interchange().header();
    let number = header.field(13);
    (
        code(read_number(number, MOST_CONTROL_DIGITS)),
        header.field(5),
        header.field(6),
        header.field(7),
        header.field(8),
        number,
    )
}

pub(crate) fn group_at<'x, 'a>(index: &'x Index<'a>, n: usize, k: usize) -> GroupEnvelope<'x, 'a>
    requires { k < length (groups_of index.now.entries n) }
    ensures { slice_get (groups_of index.now.entries n) k ≡ Some result }
{
    index.interchanges()[n].interchange().group(k)
}

fn code(number: Option<u64>) -> u64
    requires { IfSome number (λ n. n < 1000000000) }
    ensures { result ≡ code_of number }
{
    match number {
        None => 0,
        Some(number) => number + 1,
    }
}

pub(crate) fn group_key(index: &Index<'_>, n: usize, k: usize) -> u64
    requires { k < length (groups_of index.now.entries n) }
    ensures { slice_get (map group_code (groups_of index.now.entries n)) k ≡ Some result }
{
    code(read_number(
        group_at(index, n, k).header().element(6),
        MOST_CONTROL_DIGITS,
    ))
}

pub(crate) fn set_key<'a>(index: &Index<'a>, n: usize, k: usize, j: usize) -> &'a [u8]
    requires { j < length (sets_of index.now.entries n k) }
    ensures { slice_get (map set_control (sets_of index.now.entries n k)) j ≡ Some result.now }
{
    group_at(index, n, k).set_header(j).element(2)
}
