ghost use Rattle.std.specs.Prelude.{◌≡◌, ◌+◌, ◌<◌, IfOk, OnOk};
ghost use Rattle.guide_tree.specs.Words.{guide_of};
ghost use Rattle.page_command.specs.Samples.{AddsAnswers, AreAnswers};

use crate::words::words_said;
use guide_names::Names;
use guide_page::Answer;
use guide_samples::Rules;
use guide_tree::Guide;
use hub_kinds::{Items, NoMemory};
use sample_folder::file_name;
use std::alloc::Global;

/// Adds the answer to the sample for the rule with a `number`, from 0, if one is known.
fn push_answer(
    alloc: Global,
    names: &Names,
    rules: &Rules,
    number: usize,
    answers: &mut Vec<Answer>,
) -> Result<(), NoMemory>
    requires { number < 18446744073709551615 }
    ensures { OnOk result (AddsAnswers names.now (guide_of rules.now.guide) rules.now.rules number (number + 1)
        answers.old.items answers.new.items) }
{
    match rules.broken(alloc, number)? {
        None => Ok(()),
        Some(broken) => {
            let name = file_name(alloc, number as u64)?;
            let words = words_said(
                alloc,
                names,
                broken.text.as_slice(),
                broken.lines.as_slice(),
            )?;
            answers.push(Answer {
                name: Items::from_vec(name),
                words: Items::from_vec(words),
                lines: broken.lines,
            })?;
            Ok(())
        }
    }
}

fn push_answers(alloc: Global, names: &Names, rules: &Rules) -> Result<Vec<Answer>, NoMemory>
    ensures { IfOk result (λ answers. AreAnswers names.now (guide_of rules.now.guide) answers.items) }
{
    let mut answers = Vec::new(alloc);
    for number in 0..rules.count() {
        push_answer(alloc, names, rules, number, &mut answers)?;
    }
    Ok(answers)
}

/// The answers to samples that break a rule of `guide`, with the words of `names`.
pub(crate) fn answers_of(
    alloc: Global,
    names: &Names,
    guide: &Guide,
) -> Result<Vec<Answer>, NoMemory>
    ensures { IfOk result (λ answers. AreAnswers names.now (guide_of guide.now) answers.items) }
{
    let rules = Rules::new(alloc, guide)?;
    push_answers(alloc, names, &rules)
}
