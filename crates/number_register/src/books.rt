ghost use Rattle.std.specs.Prelude.{◌≡◌, ◌<◌, ◌++◌, ◌∷◌, [], Option, Some, None, IfOk, OnOk, OnErr};
ghost use Rattle.std.specs.Prelude.{is_some, length, replicate, slice_get, slice_set};
ghost use Rattle.number_register.specs.Books.{book_at};
ghost use Rattle.number_register.specs.First.{first_of, where_before};

use crate::book::Book;
use std::alloc::{AllocError, Global};
use std::marker::Model;

/// Books, by number from 0: positions of one book are never compared with those of another.
#[derive(Drop)]
pub(crate) struct Books<K: Ord + Copy + Drop> {
    alloc: Global,
    books: Vec<Book<K>>,
}

impl<K: Ord + Copy + Drop> Model for Books<K> {
    ghost use Rattle.std.specs.Prelude.{List, Option};

    ghost Value = { List (List (Option K)) };

    ghost view = { λ b. b.books.items };
}

impl<K: Ord + Copy + Drop> Books<K> {
    /// No book, and room for that many. The only error is out of memory.
    pub(crate) fn new(alloc: Global, room: usize) -> Result<Books<K>, AllocError>
        ensures { IfOk result (λ b. b ≡ []) }
    {
        let books = Vec::with_capacity(alloc, room)?;
        Ok(Books { alloc, books })
    }

    /// One more book, which has no key at each of that many positions. The only error is out of memory, which leaves the books as
    /// they were.
    pub(crate) fn push(&mut self, count: usize) -> Result<(), AllocError>
        ensures ok { OnOk result (self.new ≡ self.old ++ replicate count None ∷ []) }
        ensures err { OnErr result (self.new ≡ self.old) }
    {
        let book = Book::new(self.alloc, count)?;
        self.books.push(book)?;
        Ok(())
    }

    /// Whether there is a key at a position of a book.
    pub(crate) fn holds(&self, book: usize, at: usize) -> bool
        requires { at < length (book_at self.now book) }
        ensures { (k : Option _) → slice_get (book_at self.now book) at ≡ Some k → result ≡ is_some k }
    {
        self.books[book].holds(at)
    }

    /// Puts a key at a position of a book that has none there. The only error is out of memory, which leaves the books as they
    /// were.
    pub(crate) fn add(&mut self, book: usize, at: usize, key: K) -> Result<(), AllocError>
        requires { slice_get (book_at self.old book) at ≡ Some None }
        ensures ok { OnOk result (self.new ≡ slice_set self.old book (slice_set (book_at self.old book) at (Some key))) }
        ensures err { OnErr result (self.new ≡ self.old) }
    {
        self.books[book].add(at, key)
    }

    /// The first position of a book before this one whose key is equal to its own.
    pub(crate) fn earlier(&self, book: usize, at: usize) -> Option<usize>
        requires { at < length (book_at self.now book) }
        ensures { (key : _) → slice_get (book_at self.now book) at ≡ Some (Some key)
            → result ≡ where_before at (first_of K.cmp (book_at self.now book) key) }
    {
        self.books[book].earlier(at)
    }
}
