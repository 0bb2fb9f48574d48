ghost use Rattle.night_equal_setup.specs.Laws.{CountersTextsAreOne, SetupBytesAreOne, SetupFilesAreOne};

/// A theorem, with nothing to run: the setup that is built of rows is the one that their tables describe.
pub fn setup_files_are_one()
    ensures { SetupFilesAreOne }
{}

/// A theorem, with nothing to run: the setup that is built of files is the one that their bytes describe.
pub fn setup_bytes_are_one()
    ensures { SetupBytesAreOne }
{}

/// A theorem, with nothing to run: the text of the next counters is the one that is written.
pub fn counters_texts_are_one()
    ensures { CountersTextsAreOne }
{}
