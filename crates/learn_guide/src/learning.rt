use crate::cause::{append, append_number, orders_words, trouble_words};
use crate::known::Known;
use crate::tree::Tree;
use crate::walk::{rank_of, walk_set};
use crate::write::append_nodes;
use guide_tree::Guide;
use hub_kinds::{Items, NoMemory, Text};
use learn_samples::Sample;
use std::alloc::Global;

/// What is proposed for sets of one kind.
#[derive(Debug, Drop)]
pub enum Proposal {
    /// The text of a guide file.
    Guide(Text),
    /// Why there is none, in words.
    None(Text),
}

/// A guide file for the sets of `samples`, of which each has the GS01, GS08 and ST01 of the first; types and lengths are those of the rows
/// of `known` guides for the same elements, if there are some. `files` are the paths of the samples' files, by which a cause names a set.
/// The only error is out of memory.
pub fn propose(
    alloc: Global,
    samples: &[Sample],
    files: &[&str],
    known: &[Guide],
) -> Result<Proposal, NoMemory> {
    let mut tree = Tree::new(alloc)?;
    let rank = rank_of(samples);
    for k in 0..samples.len() {
        walk_set(alloc, &mut tree, &samples[k], k, rank)?;
    }
    if let Some(trouble) = tree.trouble {
        let words = trouble_words(alloc, samples, files, trouble)?;
        return Ok(Proposal::None(words));
    }
    let rows = Known::new(alloc, known)?;
    let mut out = Vec::new(alloc);
    append_head(&mut out, samples)?;
    append_hierarchy(&mut out, &tree)?;
    append(&mut out, b"nodes = [\n")?;
    if let Some(round) = append_nodes(alloc, &mut out, &rows, &mut tree)? {
        let words = orders_words(alloc, samples, files, round.as_slice())?;
        return Ok(Proposal::None(words));
    }
    append(&mut out, b"]\n")?;
    Ok(Proposal::Guide(Items::from_vec(out)))
}

/// Writes a key of the top table, and its text.
fn append_key(out: &mut Vec<u8>, key: &[u8], text: &[u8]) -> Result<(), NoMemory> {
    append(out, key)?;
    append(out, b" = \"")?;
    append(out, text)?;
    append(out, b"\"\n")
}

/// Writes the comment at the head, and the keys that say for which sets the guide is.
fn append_head(out: &mut Vec<u8>, samples: &[Sample]) -> Result<(), NoMemory> {
    let Some(first) = samples.first() else {
        return Ok(());
    };
    append(out, b"# Learned from ")?;
    append_number(out, samples.len())?;
    append(
        out,
        if samples.len() == 1 {
            b" set, which meets this guide.".as_slice()
        } else {
            b" sets. Each of them meets this guide.".as_slice()
        },
    )?;
    append(
        out,
        b"\n# Read each line: what no sample shows isn't allowed here.\n",
    )?;
    append(out, b"name = \"LEARNED")?;
    append(out, first.header.element(1))?;
    append(out, b"\"\n")?;
    append_key(out, b"group", first.group.element(1))?;
    append_key(out, b"set", first.header.element(1))?;
    append_key(out, b"version", first.group.element(8))
}

/// Writes the levels of HL, if there are some.
fn append_hierarchy(out: &mut Vec<u8>, tree: &Tree) -> Result<(), NoMemory> {
    if tree.pairs.is_empty() {
        return Ok(());
    }
    append(out, b"hl = {pairs=[")?;
    let mut is_first = true;
    for pair in tree.pairs.iter() {
        append(
            out,
            if is_first {
                b"\"".as_slice()
            } else {
                b", \"".as_slice()
            },
        )?;
        append(out, pair.as_slice())?;
        append(out, b"\"")?;
        is_first = false;
    }
    append(out, b"], sequential=")?;
    append(out, if tree.sequential { b"true" } else { b"false" })?;
    append(out, b"}\n")
}
