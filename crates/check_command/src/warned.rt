ghost use Rattle.std.specs.Prelude.{◌≡◌, [], length, IfOk};
ghost use Rattle.guide_tree.specs.Words.{guide_of};
ghost use Rattle.guide_warnings.specs.Warnings.{warnings_of};

use guide_tree::Guide;
use guide_warnings::{Warning, warnings_of};
use hub_kinds::{Items, NoMemory, Texts};
use setup_errors::warning_text;
use std::alloc::Global;

/// No warnings.
pub(crate) fn no_warnings(alloc: Global) -> Texts
    ensures { result ≡ [] }
{
    Items::from_vec(Vec::new(alloc))
}

fn texts_of(alloc: Global, warnings: &[Warning]) -> Result<Texts, NoMemory>
    ensures { IfOk result (λ texts. length texts ≡ length warnings.now) }
{
    let mut texts = Vec::new(alloc);
    for i in 0..warnings.len() {
        texts.push(warning_text(alloc, &warnings[i])?)?;
    }
    Ok(Items::from_vec(texts))
}

/// The warnings of a guide, in words: a text for each. The only error is out of memory.
pub(crate) fn warning_texts(alloc: Global, guide: &Guide) -> Result<Texts, NoMemory>
    ensures { IfOk result (λ texts. length texts ≡ length (warnings_of (guide_of guide.now))) }
{
    let warnings = warnings_of(alloc, guide)?;
    texts_of(alloc, warnings.as_slice())
}
