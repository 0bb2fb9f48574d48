ghost use Rattle.std.specs.Prelude.{◌≡◌, IfOk};
ghost use Rattle.guide_tree.specs.Words.{guide_of};
ghost use Rattle.guide_samples.specs.Samples.{IsSample};
ghost use Rattle.page_command.specs.Outcome.{IsPageOf};

use crate::answers::answers_of;
use guide_names::Names;
use guide_page::append_page;
use guide_tree::Guide;
use hub_kinds::NoMemory;
use std::alloc::Global;

/// The page of `guide`, with the words of `names`, `sample`, which meets the guide, and the answers to samples that break a rule.
pub(crate) fn page_of(
    alloc: Global,
    guide: &Guide,
    names: &Names,
    sample: &[u8],
) -> Result<Vec<u8>, NoMemory>
    requires { IsSample (guide_of guide.now) sample.now }
    ensures { IfOk result (λ text. IsPageOf names.now (guide_of guide.now) text.items) }
{
    let answers = answers_of(alloc, names, guide)?;
    let mut text = Vec::new(alloc);
    append_page(
        alloc,
        &mut text,
        names,
        guide.rows(),
        sample,
        answers.as_slice(),
    )?;
    Ok(text)
}
