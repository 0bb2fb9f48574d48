ghost use Rattle.std.specs.Prelude.{◌≡◌, ◌-◌, ◌≤◌, length, slice_get, Some};
ghost use Rattle.env_index.specs.Unjudged.{faults_of};

use crate::faults::judge_interchange;
use crate::index::Index;
use hub_kinds::InterchangeFault;

/// The least of the faults 1 to 7 of an interchange of this text's index, counted from 1; none where it has none (X12.5, interchange
/// control numbers and counts; X12.6, functional group and transaction set headers; own numbers). The index lends the text.
pub fn judge(_text: &[u8], index: &Index<'_>, number: usize) -> Option<InterchangeFault>
    requires text { index.now.text ≡ _text.now }
    requires first { 1 ≤ number }
    requires last { number ≤ length index.now.entries }
    ensures { slice_get (faults_of index.now.entries) (number - 1) ≡ Some result }
{
    judge_interchange(index.interchanges()[number - 1].interchange())
}
