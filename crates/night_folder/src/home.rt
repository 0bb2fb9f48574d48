ghost use Rattle.std.specs.Prelude.{◌≡◌, IfOk};
ghost use Rattle.night_folder.specs.Home as home;

use crate::paper::path_in;
use hub_kinds::{NoMemory, Text, copy_text};
use night_marks::NightMark;
use std::alloc::Global;

/// The path of the folder of archived nights, in the folder of nights at the path `nights`.
pub fn archive_path(alloc: Global, nights: &[u8]) -> Result<Text, NoMemory>
    ensures { IfOk result (λ path. path ≡ home.archive_of nights.now) }
{
    path_in(alloc, nights, b".archived/nights")
}

/// The path of the folder in which the night `mark` has its folder, by the path `nights` of the folder of all nights.
pub fn home_of(alloc: Global, nights: &[u8], mark: &NightMark) -> Result<Text, NoMemory>
    ensures { IfOk result (λ path. path ≡ home.home_of nights.now mark.now) }
{
    if mark.is_archived {
        archive_path(alloc, nights)
    } else {
        copy_text(alloc, nights)
    }
}
