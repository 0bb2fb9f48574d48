//! Keys by position, in whatever order they come.
use number_register::Book;
use std::alloc::Global;
use std::test::Fail;

/// The keys with their positions, in the order in which they come, and of each position the first one that has its key, if that is
/// an earlier one.
type Case = (&'static [(usize, u64)], &'static [Option<usize>]);

const CASES: &[Case] = &[
    (&[(0, 1), (1, 2), (2, 3)], &[None, None, None]),
    (&[(0, 7), (1, 7), (2, 7)], &[None, Some(0), Some(0)]),
    (&[(2, 7), (1, 7), (0, 7)], &[None, Some(0), Some(0)]),
    (&[(0, 3), (1, 2), (2, 3)], &[None, None, Some(0)]),
    (&[(2, 3), (0, 3), (1, 1)], &[None, None, Some(0)]),
    (&[(1, 5), (0, 9), (2, 5)], &[None, None, Some(1)]),
];

fn book_of(alloc: Global, keys: &[(usize, u64)], count: usize) -> Result<Book<u64>, Fail> {
    let mut book = Book::new(alloc, count)?;
    for (at, key) in keys {
        if *at < book.len() && !book.holds(*at) {
            book.add(*at, *key)?;
        }
    }
    Ok(book)
}

fn expect(alloc: Global, case: &Case) -> Result<(), Fail> {
    let (keys, wanted) = *case;
    let book = book_of(alloc, keys, wanted.len())?;
    for at in 0..wanted.len() {
        let found = if at < book.len() {
            book.earlier(at)
        } else {
            return Err("a shorter book".into());
        };
        if found != wanted[at] {
            return Err(Fail::new(format!(in alloc; "{keys:?}: {at} has {found:?}")?));
        }
    }
    Ok(())
}

#[test]
fn equal_keys_in_any_order(rt: HostRuntime) -> Result<(), Fail> {
    for case in CASES {
        expect(rt.alloc(), case)?;
    }
    Ok(())
}

/// 100,000 keys, each of which is at two positions, from the last one on.
#[test]
fn falling_keys(rt: HostRuntime) -> Result<(), Fail> {
    let count = 200_000usize;
    let mut book = Book::new(rt.alloc(), count)?;
    for k in 0..count {
        let at = count - 1 - k;
        if at < book.len() && !book.holds(at) {
            book.add(at, (at / 2) as u64)?;
        }
    }
    if book.len() <= 199_999 {
        return Err("a shorter book".into());
    }
    assert_eq!(rt;
        (book.earlier(199_998), book.earlier(199_999)),
        (None, Some(199_998))
    );
    Ok(())
}
