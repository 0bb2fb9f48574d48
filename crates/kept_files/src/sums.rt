ghost use Rattle.std.specs.Prelude.{◌≡◌, ◌++◌, IfOk, OnOk, map};
ghost use Rattle.std.specs.List.{flat_map};
ghost use Rattle.std.specs.List.Sorted.{IsPermutation, IsSorted};
ghost use Rattle.std.specs.Cmp.Lexicographic.{slice_cmp};
ghost use Rattle.std.specs.Ordering.{nat_cmp};
ghost use Rattle.hub_kinds.specs.Rising.{order_by};
ghost use Rattle.kept_files.specs.Sums as sums;
ghost use Rattle.night_record.specs.declared.record.SummedFile.{SummedFile};

use hub_kinds::{NoMemory, copy_text};
use night_entries::sum_of;
use night_record::SummedFile;
use night_shelf::NightFile;
use std::alloc::Global;
use std::cmp::Ordering;

fn summed(alloc: Global, file: &NightFile) -> Result<SummedFile, NoMemory>
    ensures { IfOk result (λ sum. sum ≡ sums.sum_of file.now) }
{
    Ok(SummedFile {
        name: copy_text(alloc, file.name.as_slice())?,
        sum: sum_of(alloc, file.bytes.as_slice())?,
    })
}

/// The sum of each of `files`.
pub(crate) fn sums_of(alloc: Global, files: &[NightFile]) -> Result<Vec<SummedFile>, NoMemory>
    ensures { IfOk result (λ list. list.items ≡ map sums.sum_of files.now) }
{
    let mut list = Vec::new(alloc);
    for i in 0..files.len() {
        list.push(summed(alloc, &files[i])?)?;
    }
    Ok(list)
}

/// Appends the line of `name` and `sum`, as sha256sum prints it.
pub(crate) fn append_line(out: &mut Vec<u8>, name: &[u8], sum: &[u8]) -> Result<(), NoMemory>
    ensures { OnOk result (out.new.items ≡ out.old.items ++ sums.line_of name.now sum.now) }
{
    out.extend_from_slice(sum)?;
    out.extend_from_slice(b"  ")?;
    out.extend_from_slice(name)?;
    out.push(b'\n')?;
    Ok(())
}

/// The line of each of `list`.
pub(crate) fn lines_of(alloc: Global, list: &[SummedFile]) -> Result<Vec<u8>, NoMemory>
    ensures { IfOk result (λ text. text.items ≡ flat_map (λ (sum : SummedFile). sums.line_of sum.name sum.sum) list.now) }
{
    let mut text = Vec::new(alloc);
    for i in 0..list.len() {
        append_line(&mut text, list[i].name.as_slice(), list[i].sum.as_slice())?;
    }
    Ok(text)
}

fn by_name(sum: &SummedFile, other: &SummedFile) -> Ordering
    ensures { result ≡ slice_cmp nat_cmp sum.now.name other.now.name }
{
    sum.name.as_slice().cmp(other.name.as_slice())
}

/// The sums of `list` by their names, in the order of bytes.
pub(crate) fn in_order(list: Vec<SummedFile>) -> Vec<SummedFile>
    ensures all { IsPermutation list.items result.items }
    ensures order { IsSorted (order_by sums.name_of) result.items }
{
    let mut list = list;
    list.sort_unstable_by(|sum, other| by_name(sum, other));
    list
}
