ghost use Rattle.night_equal_guides.specs.Laws.{GuideBytesAreOne, GuideFilesAreOne};

/// A theorem, with nothing to run: the guide that is read of a table is the one that the table describes.
pub fn guide_files_are_one()
    ensures { GuideFilesAreOne }
{}

/// A theorem, with nothing to run: the guide that is read of a file's bytes is the one that the bytes describe.
pub fn guide_bytes_are_one()
    ensures { GuideBytesAreOne }
{}
