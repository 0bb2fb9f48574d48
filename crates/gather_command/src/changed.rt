ghost use Rattle.std.specs.Prelude.{◌≢◌, ◌≡◌, true, IfOk};
ghost use Rattle.std.specs.Fs.{IsFile, file_type, metadata_len};

use std::fs::Metadata;
use std::io;
use std::time::SystemTime;

/// Whether a regular file is another after it was read: it has another length or time of change, or is gone.
pub fn is_changed(before: &io::Result<Metadata>, after: &io::Result<Metadata>) -> bool
    ensures { IfOk before.now (λ b. IfOk after.now (λ a. IsFile (file_type b) → metadata_len b ≢ metadata_len a → result ≡ true)) }
{
    match before {
        Ok(before) => match after {
            Ok(after) => before.is_file() && !is_same(before, after),
            Err(_) => before.is_file(),
        },
        Err(_) => false,
    }
}

fn is_same(before: &Metadata, after: &Metadata) -> bool
    ensures { result ≡ true → metadata_len before.now ≡ metadata_len after.now }
{
    before.len() == after.len() && is_same_time(&before.modified(), &after.modified())
}

fn is_same_time(before: &io::Result<SystemTime>, after: &io::Result<SystemTime>) -> bool {
    match before {
        Ok(before) => match after {
            Ok(after) => before == after,
            Err(_) => false,
        },
        Err(_) => after.is_err(),
    }
}
