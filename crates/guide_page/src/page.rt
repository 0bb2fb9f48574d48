ghost use Rattle.std.specs.Prelude.{◌≡◌, ◌++◌, OnOk};
ghost use Rattle.std.specs.List.{flat_map};
ghost use Rattle.guide_tree.specs.Words.{guide_of, nodes_view};
ghost use Rattle.guide_page.specs.Nodes.{order_part, sections_part};
ghost use Rattle.guide_page.specs.Page as page;
ghost use Rattle.guide_page.specs.Tags.{row_head};

use crate::fixed::{FOOT, HEAD};
use crate::named::append_set_words;
use crate::nodes::append_order;
use crate::rules::{
    append_depends, append_dictionary, append_head, append_levels, append_title, append_tolerated,
};
use crate::sections::append_sections;
use crate::tags::{
    append_fixed, append_lines_cell, append_row_end, append_row_head, append_table_end,
    append_text_cell,
};
use guide_names::Names;
use guide_tree::GuideRows;
use html_text::append_lines;
use hub_kinds::{NoMemory, Text};
use std::alloc::Global;

/// What is answered to a sample that breaks a rule.
#[derive(Debug, Drop)]
pub struct Answer {
    /// The name of the sample's file.
    pub name: Text,
    /// What is wrong with its set, in words.
    pub words: Text,
    /// What the 999 says of its set, as written.
    pub lines: Text,
}

fn append_sample(out: &mut Vec<u8>, sample: &[u8]) -> Result<(), NoMemory>
    ensures { OnOk result (out.new.items ≡ out.old.items ++ page.sample_part sample.now) }
{
    append_fixed(out, b"<h2>A complete sample</h2>\n<pre>")?;
    append_lines(out, sample)?;
    append_fixed(out, b"</pre>\n")
}

fn append_name(alloc: Global, out: &mut Vec<u8>, answer: &Answer) -> Result<(), NoMemory>
    ensures { OnOk result (out.new.items ≡ out.old.items ++ row_head answer.now.name) }
{
    append_row_head(alloc, out, answer.name.as_slice())
}

fn append_answer(alloc: Global, out: &mut Vec<u8>, answer: &Answer) -> Result<(), NoMemory>
    ensures { OnOk result (out.new.items ≡ out.old.items ++ page.answer_row answer.now) }
{
    append_name(alloc, out, answer)?;
    append_lines_cell(out, &answer.words)?;
    append_text_cell(alloc, out, &answer.lines)?;
    append_row_end(out)
}

fn append_answer_rows(alloc: Global, out: &mut Vec<u8>, answers: &[Answer]) -> Result<(), NoMemory>
    ensures { OnOk result (out.new.items ≡ out.old.items ++ flat_map page.answer_row answers.now) }
{
    for i in 0..answers.len() {
        append_answer(alloc, out, &answers[i])?;
    }
    Ok(())
}

fn append_answers_head(out: &mut Vec<u8>) -> Result<(), NoMemory>
    ensures { OnOk result (out.new.items ≡ out.old.items ++ page.answers_head) }
{
    append_fixed(
        out,
        b"<h2>What is answered</h2>\n<p>Each of these samples breaks one rule alone.</p>\n<table>\n<thead><tr>",
    )?;
    append_fixed(
        out,
        b"<th scope=\"col\">Sample</th><th scope=\"col\">What is wrong</th><th scope=\"col\">In the 999</th></tr></thead>\n<tbody>\n",
    )
}

fn append_answers(alloc: Global, out: &mut Vec<u8>, answers: &[Answer]) -> Result<(), NoMemory>
    ensures { OnOk result (out.new.items ≡ out.old.items ++ page.answers_part answers.now) }
{
    append_answers_head(out)?;
    append_answer_rows(alloc, out, answers)?;
    append_table_end(out)
}

fn append_all_sections(
    alloc: Global,
    out: &mut Vec<u8>,
    names: &Names,
    rows: &GuideRows,
) -> Result<(), NoMemory>
    ensures { OnOk result (out.new.items ≡ out.old.items ++ sections_part names.now (nodes_view rows.now.nodes.items)) }
{
    append_sections(alloc, out, names, &rows.nodes)
}

fn append_all_rows(
    alloc: Global,
    out: &mut Vec<u8>,
    names: &Names,
    rows: &GuideRows,
) -> Result<(), NoMemory>
    ensures { OnOk result (out.new.items ≡ out.old.items ++ order_part names.now (nodes_view rows.now.nodes.items)) }
{
    append_order(alloc, out, names, &rows.nodes)
}

/// Appends what holds of a set as a whole.
fn append_set(alloc: Global, out: &mut Vec<u8>, rows: &GuideRows) -> Result<(), NoMemory>
    ensures { OnOk result (out.new.items ≡ out.old.items ++ page.set_part (guide_of rows.now)) }
{
    append_levels(alloc, out, &rows.hl)?;
    append_depends(alloc, out, rows)?;
    append_tolerated(alloc, out, &rows.head)
}

/// Appends what comes before the sample.
fn append_front(
    alloc: Global,
    out: &mut Vec<u8>,
    names: &Names,
    rows: &GuideRows,
) -> Result<(), NoMemory>
    ensures { OnOk result (out.new.items ≡ out.old.items ++ page.front_part names.now (guide_of rows.now)) }
{
    append_title(alloc, out, &rows.head)?;
    append_set_words(alloc, out, names)?;
    append_head(alloc, out, &rows.head)?;
    append_dictionary(alloc, out, &rows.head)?;
    append_all_rows(alloc, out, names, rows)?;
    append_set(alloc, out, rows)
}

fn append_head_text(out: &mut Vec<u8>) -> Result<(), NoMemory>
    ensures { OnOk result (out.new.items ≡ out.old.items ++ page.head_text) }
{
    append_fixed(out, HEAD.as_bytes())
}

fn append_foot_text(out: &mut Vec<u8>) -> Result<(), NoMemory>
    ensures { OnOk result (out.new.items ≡ out.old.items ++ page.foot_text) }
{
    append_fixed(out, FOOT.as_bytes())
}

/// Appends to `out` the page of a guide with these `rows`, with the words of `names`, a `sample` that meets the guide, and `answers` to
/// samples that break a rule. The only error is out of memory.
pub fn append_page(
    alloc: Global,
    out: &mut Vec<u8>,
    names: &Names,
    rows: &GuideRows,
    sample: &[u8],
    answers: &[Answer],
) -> Result<(), NoMemory>
    ensures { OnOk result (out.new.items ≡ out.old.items ++ page.page_text names.now (guide_of rows.now) sample.now answers.now) }
{
    append_head_text(out)?;
    append_front(alloc, out, names, rows)?;
    append_sample(out, sample)?;
    append_all_sections(alloc, out, names, rows)?;
    append_answers(alloc, out, answers)?;
    append_foot_text(out)
}
