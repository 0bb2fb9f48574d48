ghost use Rattle.std.specs.Prelude.{◌≡◌, IfOk, List, ℕ, map, slice_range};
ghost use Rattle.std.specs.List.{dedup};
ghost use Rattle.kept_files.specs.Taken as taken;

use hub_kinds::{NoMemory, Text, copy_text};
use night_record::TakenInterchange;
use std::alloc::Global;

/// How many bytes of a key are its interchange: ISA05 to ISA08 and ISA13.
const WIDTH: usize = 43;

/// The bytes of `key` from `begin` up to `end`, as far as it has them.
fn part(key: &[u8], begin: usize, end: usize) -> &[u8]
    ensures { result.now ≡ slice_range key.entry.now begin end }
{
    let end = end.min(key.len());
    if begin < end { &key[begin..end] } else { b"" }
}

fn is_of_one(key: &[u8], other: &[u8]) -> bool
    ensures { result ≡ taken.is_of_one key.now other.now }
{
    part(key, 0, WIDTH) == part(other, 0, WIDTH)
}

fn interchange_in(alloc: Global, key: &[u8]) -> Result<TakenInterchange, NoMemory>
    ensures { IfOk result (λ interchange. interchange ≡ taken.interchange_in key.now) }
{
    Ok(TakenInterchange {
        isa05: copy_text(alloc, part(key, 0, 2))?,
        isa06: copy_text(alloc, part(key, 2, 17))?,
        isa07: copy_text(alloc, part(key, 17, 19))?,
        isa08: copy_text(alloc, part(key, 19, 34))?,
        isa13: copy_text(alloc, part(key, 34, WIDTH))?,
    })
}

/// The first of `delivered` in each run of keys of one interchange.
fn firsts<'a>(alloc: Global, delivered: &'a [Text]) -> Result<Vec<&'a [u8]>, NoMemory>
    ensures { IfOk result (λ keys. map (λ key. key.now) keys.items ≡ dedup taken.is_of_one delivered.entry.now) }
{
    let mut keys = Vec::new(alloc);
    for i in 0..delivered.len() {
        keys.push(delivered[i].as_slice())?;
    }
    keys.dedup_by(|next, kept| is_of_one(next, kept));
    Ok(keys)
}

/// The interchanges of `delivered`, the keys of the sets that a night delivered, in their order. The only error is out of memory.
pub fn taken_of(alloc: Global, delivered: &[Text]) -> Result<Vec<TakenInterchange>, NoMemory>
    ensures { IfOk result (λ list. list.items ≡ taken.taken_of delivered.now) }
{
    let keys = firsts(alloc, delivered)?;
    let mut list = Vec::new(alloc);
    for i in 0..keys.len() {
        list.push(interchange_in(alloc, keys[i])?)?;
    }
    Ok(list)
}
