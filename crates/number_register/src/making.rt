//! Books without a key, for an index.
ghost use Rattle.std.specs.Prelude.{◌≡◌, IfOk, map};
ghost use Rattle.number_register.specs.Fresh.{fresh_books, fresh_groups, fresh_sets};

use crate::books::Books;
use env_index::{IndexedInterchange, Interchange};
use hub_kinds::NoMemory;
use std::alloc::Global;

pub(crate) fn group_books(
    alloc: Global,
    entries: &[IndexedInterchange<'_>],
) -> Result<Books<u64>, NoMemory>
    ensures { IfOk result (λ b. b ≡ map fresh_groups entries.now) }
{
    let mut books = Books::new(alloc, entries.len())?;
    for entry in entries {
        books.push(entry.interchange().group_count())?;
    }
    Ok(books)
}

fn set_books_of<'a>(
    alloc: Global,
    interchange: &Interchange<'_>,
) -> Result<Books<&'a [u8]>, NoMemory>
    ensures { IfOk result (λ b. b ≡ map fresh_sets interchange.now.content.groups) }
{
    let mut books = Books::new(alloc, interchange.group_count())?;
    for k in 0..interchange.group_count() {
        books.push(interchange.group(k).set_count())?;
    }
    Ok(books)
}

pub(crate) fn set_books<'a>(
    alloc: Global,
    entries: &[IndexedInterchange<'_>],
) -> Result<Vec<Books<&'a [u8]>>, NoMemory>
    ensures { IfOk result (λ v. v.items ≡ map fresh_books entries.now) }
{
    let mut all = Vec::new(alloc);
    for entry in entries {
        all.push(set_books_of(alloc, entry.interchange())?)?;
    }
    Ok(all)
}
