ghost use Rattle.gather_files.specs.Laws.{AloneIsOne, BegunIsOne, CompleteIsOne, CountIsOne, FilesAreRead, GoesInIsOne, LackIsOne};
ghost use Rattle.gather_files.specs.Laws.{OpenIsOne};

/// A theorem, with nothing to run: a file stands alone exactly if the layers say that it keeps to itself.
pub fn alone_is_one()
    ensures { AloneIsOne }
{}

/// A theorem, with nothing to run: a file that stands alone has as many interchanges as the layers say.
pub fn count_is_one()
    ensures { CountIsOne }
{}

/// A theorem, with nothing to run: bytes are read alone, whatever follows, exactly if by the layers no interchange is open after them.
pub fn complete_is_one()
    ensures { CompleteIsOne }
{}

/// A theorem, with nothing to run: more bytes can complete a header exactly if by the layers it may begin.
pub fn begun_is_one()
    ensures { BegunIsOne }
{}

/// A theorem, with nothing to run: an interchange is open exactly if the layers don't know its end.
pub fn open_is_one()
    ensures { OpenIsOne }
{}

/// A theorem, with nothing to run: a file lacks nothing exactly if by the layers it stands apart.
pub fn lack_is_one()
    ensures { LackIsOne }
{}

/// A theorem, with nothing to run: files that stand alone are read each alone, in a row.
pub fn files_are_read()
    ensures { FilesAreRead }
{}

/// A theorem, with nothing to run: a file goes in as the definition of a night says exactly if it goes in as the layers say.
pub fn goes_in_is_one()
    ensures { GoesInIsOne }
{}
