ghost use Rattle.std.specs.Prelude.{IfOk, IfSome};
ghost use Rattle.guide_tree.specs.Words.{guide_of};
ghost use Rattle.guide_samples.specs.Samples.{IsSample};

use crate::build::{Piece, pieces_of};
use crate::judge::meets;
use crate::levels::with_levels;
use crate::plan::Plan;
use crate::write::text_of;
use guide_tree::Guide;
use hub_kinds::{NoMemory, Text};
use std::alloc::Global;

/// A text whose set meets the guide, with each segment and element that the guide allows, as far as its rules allow them together.
/// None means that no such text was found, and says nothing of the guide. It takes about as long as one check of the text, which has at
/// most 50,000 segments. The only error is out of memory.
pub fn complete(alloc: Global, guide: &Guide) -> Result<Option<Text>, NoMemory>
    ensures { IfOk result (λ found. IfSome found (IsSample (guide_of guide.now))) }
{
    sample(alloc, guide, true)
}

/// A text whose set meets the guide, with only what the guide asks for. None means that no such text was found, and says nothing of the
/// guide. The only error is out of memory.
pub fn smallest(alloc: Global, guide: &Guide) -> Result<Option<Text>, NoMemory>
    ensures { IfOk result (λ found. IfSome found (IsSample (guide_of guide.now))) }
{
    sample(alloc, guide, false)
}

fn sample(alloc: Global, guide: &Guide, full: bool) -> Result<Option<Text>, NoMemory>
    ensures { IfOk result (λ found. IfSome found (IsSample (guide_of guide.now))) }
{
    let plan = Plan::new(alloc, guide, full)?;
    let Some(pieces) = sample_pieces(alloc, &plan)? else {
        return Ok(None);
    };
    let text = text_of(alloc, guide.rows(), pieces.as_slice(), &[])?;
    if meets(alloc, text.as_slice(), guide)? {
        Ok(Some(text))
    } else {
        Ok(None)
    }
}

/// The segments of a sample, with their hierarchy.
pub(crate) fn sample_pieces<'g>(
    alloc: Global,
    plan: &Plan<'g>,
) -> Result<Option<Vec<Piece<'g>>>, NoMemory> {
    let Some(pieces) = pieces_of(alloc, plan)? else {
        return Ok(None);
    };
    let nodes = plan.rows.nodes.as_slice();
    match &plan.rows.hl {
        None => Ok(Some(pieces)),
        Some(rule) => Ok(Some(with_levels(alloc, rule, nodes, pieces, plan.full)?)),
    }
}
