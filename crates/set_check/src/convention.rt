ghost use Rattle.std.specs.Prelude.{◌≡◌};
ghost use Rattle.std.specs.Option.{option_copied};
ghost use Rattle.set_check.specs.Checked.{guide_tree_of};
ghost use Rattle.set_check.specs.Codes.{has_other_convention, is_other};
ghost use Rattle.set_check.specs.MeetsLaw.{IsWellGuided};

use elem_rules::is_empty;
use guide_tree::Guide;
use hub_kinds::Text;
use x12_bytes::Delims;

/// Whether the guide has a convention, and ST03 names another. A guide is well formed: it was checked when it was made.
pub(crate) fn has_other_convention(delims: Delims, guide: Option<&Guide>, given: &[u8]) -> bool
    ensures value { result ≡ has_other_convention delims (guide_tree_of (option_copied guide.entry)) given.now }
    ensures sound { IsWellGuided (guide_tree_of (option_copied guide.entry)) }
{
    match guide {
        Some(guide) => is_other(delims, &guide.rows().head.convention, given),
        None => false,
    }
}

fn is_other(delims: Delims, convention: &Option<Text>, given: &[u8]) -> bool
    ensures { result ≡ is_other delims convention.now given.now }
{
    match convention {
        Some(convention) => !is_empty(delims, given) && given != convention.as_slice(),
        None => false,
    }
}
