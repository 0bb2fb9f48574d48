ghost use Rattle.std.specs.Prelude.{◌≡◌, ◌⊎◌, ◌↔◌, IfOk, true};
ghost use Rattle.diff_report.specs.Compared.{IsCompared};

use diff_lines::diff_text;
use guide_tree::Guide;
use guide_widening::{are_widenings, differences};
use hub_kinds::NoMemory;
use std::alloc::Global;
use widening_law::wider_guides_take_each_set;

/// What is printed of two guides, and the status.
#[derive(Debug, Drop)]
pub struct Report {
    pub text: Vec<u8>,
    pub status: u8,
}

fn status_of(widened: bool) -> u8
    ensures zero { (result ≡ 0) ↔ (widened ≡ true) }
    ensures values { (result ≡ 0) ⊎ (result ≡ 1) }
{
    if widened { 0 } else { 1 }
}

/// What is printed of the guides `old` and `new`, and the status: 0 exactly if each difference is wider, and then each set that meets
/// `old`, looked at alone, meets `new`; otherwise 1. The only error is out of memory.
pub fn compared(alloc: Global, old: &Guide, new: &Guide) -> Result<Report, NoMemory>
    ensures compared { IfOk result (λ report. IsCompared old.now new.now report.text.items report.status) }
    ensures values { IfOk result (λ report. (report.status ≡ 0) ⊎ (report.status ≡ 1)) }
{
    wider_guides_take_each_set();
    // both guides are accepted
    let _old = old.rows();
    let _new = new.rows();
    let found = differences(alloc, old, new)?;
    let text = diff_text(alloc, old, new, found.as_slice())?;
    let status = status_of(are_widenings(found.as_slice()));
    Ok(Report { text, status })
}
