ghost use Rattle.std.specs.Prelude.{◌≡◌, ◌≤◌, ◌<◌, ◌==◌, ◌+◌, ◌++◌, ℕ, List, drop, get_or, length, take, false};
ghost use Rattle.std.specs.List.{All};
ghost use Rattle.x12_bytes.specs.Header.{header_at, terminator_of};
ghost use Rattle.env_index.specs.Words.{Chain, Extent, IsIndex};
ghost use Rattle.whole_interchanges.specs.Begun.{may_begin};
ghost use Rattle.gather_files.specs.ClosingBytes.{blanked, terminated};
ghost use Rattle.gather_files.specs.Gathered.{File, HoldsInterchanges, IsClosedFile, IsFile, IsKept, IsWholeBefore, KeepsToItself};
ghost use Rattle.gather_files.specs.Gathered.{PassesInterchanges, gathered, gathered_index};

/// A theorem, with nothing to run: the index of files that stand apart, one after another, is the index of each file read alone, moved by
/// the bytes before it; and as many bytes are outside of interchanges as outside of those of each file.
pub fn files_stand_apart()
    ensures { (files : List File) → All IsFile files → IsIndex (gathered files) (gathered_index files) }
{}

/// A theorem, with nothing to run: the same of files that keep to themselves, however that is known.
pub fn files_that_keep_to_themselves_stand_apart()
    ensures { (files : List File) → All IsKept files → IsIndex (gathered files) (gathered_index files) }
{}

/// A theorem, with nothing to run: a file that is read part by part keeps to itself where what is held of it at its end does, and its
/// interchanges are those of its parts.
pub fn parts_of_a_file_keep_on()
    ensures reads { (front held next : List ℕ) (n : ℕ) → IsWholeBefore front held n → IsWholeBefore front (held ++ next) n }
    ensures gives_up { (front held : List ℕ) (at n m : ℕ) → at ≤ length held → IsWholeBefore front held n → PassesInterchanges held at m
        → IsWholeBefore (front ++ take at held) (drop at held) (n + m) }
    ensures ends { (front held : List ℕ) (n m : ℕ) → IsWholeBefore front held n → HoldsInterchanges held m
        → HoldsInterchanges (front ++ held) (n + m) }
    ensures keeps { (bytes : List ℕ) (n : ℕ) → HoldsInterchanges bytes n → KeepsToItself bytes }
{}

/// A theorem, with nothing to run: the terminator of its last interchange as its last byte closes a file.
pub fn its_terminator_closes_a_file()
    ensures { (body : List ℕ) (t : ℕ)
        → ((xs : List Extent) → Chain (terminated body t) xs
        → All (λ x. (x.end ≡ length (terminated body t)) → (terminator_of (header_at (terminated body t) x.start) ≡ t)) xs)
        → IsClosedFile (terminated body t) }
{}

/// A theorem, with nothing to run: before sixteen spaces no header can turn out to begin, nor after them where the letter I isn't
/// there.
pub fn spaces_end_a_file()
    ensures { (body tail : List ℕ) → ((k : ℕ) → k < length tail → (get_or tail k 0 == 73) ≡ false)
        → (q : ℕ) → q < length (blanked body tail) → may_begin (blanked body tail) q ≡ false }
{}
