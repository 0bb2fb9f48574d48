ghost use Rattle.std.specs.Prelude.{◌≡◌, ◌++◌, OnOk};
ghost use Rattle.std.specs.List.{flat_map};
ghost use Rattle.guide_page.specs.Rules as rules;
ghost use Rattle.guide_page.specs.Tags.{whole_list};

use crate::conditions::append_dependency_list;
use crate::tags::{append_code, append_codes, append_fixed, append_tagged, append_text};
use guide_tree::{Dependency, GuideHead, GuideRows, HlPair, HlRule};
use hub_kinds::{ElementCode, NoMemory, SegmentCode, Text, code_text};
use std::alloc::Global;

fn append_titles(alloc: Global, out: &mut Vec<u8>, name: &[u8], set: &[u8]) -> Result<(), NoMemory>
    ensures { OnOk result (out.new.items ≡ out.old.items ++ rules.title_part name.now set.now) }
{
    append_tagged(
        alloc,
        out,
        b"<title>",
        name,
        b"</title>\n</head>\n<body>\n<h1>",
    )?;
    append_tagged(alloc, out, b"", name, b": transaction set ")?;
    append_tagged(alloc, out, b"", set, b"</h1>\n")
}

/// Appends the title of a guide, and its heading.
pub(crate) fn append_title(
    alloc: Global,
    out: &mut Vec<u8>,
    head: &GuideHead,
) -> Result<(), NoMemory>
    ensures { OnOk result (out.new.items ≡ out.old.items ++ rules.title_part head.now.name head.now.set) }
{
    append_titles(alloc, out, head.name.as_slice(), head.set.as_slice())
}

fn append_convention(
    alloc: Global,
    out: &mut Vec<u8>,
    convention: &Option<Text>,
) -> Result<(), NoMemory>
    ensures { OnOk result (out.new.items ≡ out.old.items ++ rules.convention_part convention.now) }
{
    match convention {
        None => append_fixed(out, b"</p>\n"),
        Some(text) => {
            append_fixed(out, b"Convention (ST03) ")?;
            append_code(alloc, out, text.as_slice())?;
            append_fixed(out, b"</p>\n")
        }
    }
}

fn append_known(alloc: Global, out: &mut Vec<u8>, ids: &[Text]) -> Result<(), NoMemory>
    ensures { OnOk result (out.new.items ≡ out.old.items ++ rules.known_part ids.now) }
{
    append_fixed(out, b"<p>Known, and not in this set: ")?;
    append_codes(alloc, out, ids)?;
    append_fixed(out, b"</p>\n")
}

fn append_known_if(alloc: Global, out: &mut Vec<u8>, ids: &[Text]) -> Result<(), NoMemory>
    ensures { OnOk result (out.new.items ≡ out.old.items ++ rules.dictionary_part ids.now) }
{
    match ids {
        [] => Ok(()),
        [..] => append_known(alloc, out, ids),
    }
}

/// Appends the segments that are known beside those of the guide, if there are any.
pub(crate) fn append_dictionary(
    alloc: Global,
    out: &mut Vec<u8>,
    head: &GuideHead,
) -> Result<(), NoMemory>
    ensures { OnOk result (out.new.items ≡ out.old.items ++ rules.dictionary_part head.now.dictionary) }
{
    append_known_if(alloc, out, head.dictionary.as_slice())
}

/// Appends the group, the version and the convention.
pub(crate) fn append_head(
    alloc: Global,
    out: &mut Vec<u8>,
    head: &GuideHead,
) -> Result<(), NoMemory>
    ensures { OnOk result (out.new.items ≡ out.old.items ++ rules.head_part head.now) }
{
    append_fixed(out, b"<p>Group (GS01) ")?;
    append_text(alloc, out, &head.group)?;
    append_fixed(out, b"<br>\nVersion (GS08) ")?;
    append_text(alloc, out, &head.version)?;
    append_convention(alloc, out, &head.convention)
}

fn append_parent(alloc: Global, out: &mut Vec<u8>, parent: &Option<Text>) -> Result<(), NoMemory>
    ensures { OnOk result (out.new.items ≡ out.old.items ++ rules.parent_part parent.now) }
{
    match parent {
        None => append_fixed(out, b"at the top</li>\n"),
        Some(level) => {
            append_fixed(out, b"under ")?;
            append_code(alloc, out, level.as_slice())?;
            append_fixed(out, b"</li>\n")
        }
    }
}

fn append_pair(alloc: Global, out: &mut Vec<u8>, pair: &HlPair) -> Result<(), NoMemory>
    ensures { OnOk result (out.new.items ≡ out.old.items ++ rules.pair_item pair.now) }
{
    append_fixed(out, b"<li>")?;
    append_text(alloc, out, &pair.child)?;
    append_parent(alloc, out, &pair.parent)
}

fn append_pair_items(alloc: Global, out: &mut Vec<u8>, pairs: &[HlPair]) -> Result<(), NoMemory>
    ensures { OnOk result (out.new.items ≡ out.old.items ++ flat_map rules.pair_item pairs.now) }
{
    for i in 0..pairs.len() {
        append_pair(alloc, out, &pairs[i])?;
    }
    Ok(())
}

fn append_sequential(out: &mut Vec<u8>, sequential: bool) -> Result<(), NoMemory>
    ensures { OnOk result (out.new.items ≡ out.old.items ++ rules.sequential_part sequential) }
{
    if sequential {
        append_fixed(out, b"<p>HL01 counts 1, 2, 3 and so on.</p>\n")
    } else {
        Ok(())
    }
}

fn append_pair_list(alloc: Global, out: &mut Vec<u8>, pairs: &[HlPair]) -> Result<(), NoMemory>
    ensures { OnOk result (out.new.items ≡ out.old.items ++ whole_list rules.pair_item pairs.now) }
{
    append_fixed(out, b"<ul>\n")?;
    append_pair_items(alloc, out, pairs)?;
    append_fixed(out, b"</ul>\n")
}

fn append_pairs(alloc: Global, out: &mut Vec<u8>, rule: &HlRule) -> Result<(), NoMemory>
    ensures { OnOk result (out.new.items ≡ out.old.items ++ whole_list rules.pair_item rule.now.pairs) }
{
    append_pair_list(alloc, out, rule.pairs.as_slice())
}

fn append_rule(alloc: Global, out: &mut Vec<u8>, rule: &HlRule) -> Result<(), NoMemory>
    ensures { OnOk result (out.new.items ≡ out.old.items ++ rules.rule_part rule.now) }
{
    append_fixed(out, b"<h2>Levels (HL)</h2>\n")?;
    append_pairs(alloc, out, rule)?;
    append_sequential(out, rule.sequential)
}

/// Appends the levels of the hierarchy, if the guide has any.
pub(crate) fn append_levels(
    alloc: Global,
    out: &mut Vec<u8>,
    rule: &Option<HlRule>,
) -> Result<(), NoMemory>
    ensures { OnOk result (out.new.items ≡ out.old.items ++ rules.levels_part rule.now) }
{
    match rule {
        None => Ok(()),
        Some(rule) => append_rule(alloc, out, rule),
    }
}

fn append_dependencies(
    alloc: Global,
    out: &mut Vec<u8>,
    depends: &[Dependency],
) -> Result<(), NoMemory>
    ensures { OnOk result (out.new.items ≡ out.old.items ++ rules.dependencies_part depends.now) }
{
    append_fixed(out, b"<h2>Dependencies</h2>\n")?;
    append_dependency_list(alloc, out, depends)
}

fn append_depends_if(
    alloc: Global,
    out: &mut Vec<u8>,
    depends: &[Dependency],
) -> Result<(), NoMemory>
    ensures { OnOk result (out.new.items ≡ out.old.items ++ rules.depends_part depends.now) }
{
    match depends {
        [] => Ok(()),
        [..] => append_dependencies(alloc, out, depends),
    }
}

fn append_segment_codes(
    alloc: Global,
    out: &mut Vec<u8>,
    codes: &[SegmentCode],
) -> Result<(), NoMemory>
    ensures { OnOk result (out.new.items ≡ out.old.items ++ rules.segment_codes codes.now) }
{
    for i in 0..codes.len() {
        append_code(alloc, out, code_text(codes[i]).as_bytes())?;
    }
    Ok(())
}

fn append_element_codes(
    alloc: Global,
    out: &mut Vec<u8>,
    codes: &[ElementCode],
) -> Result<(), NoMemory>
    ensures { OnOk result (out.new.items ≡ out.old.items ++ rules.element_codes codes.now) }
{
    for i in 0..codes.len() {
        append_code(alloc, out, code_text(codes[i]).as_bytes())?;
    }
    Ok(())
}

fn append_segment_words(
    alloc: Global,
    out: &mut Vec<u8>,
    codes: &[SegmentCode],
) -> Result<(), NoMemory>
    ensures { OnOk result (out.new.items ≡ out.old.items ++ rules.segment_words codes.now) }
{
    match codes {
        [] => append_fixed(out, b"none. "),
        [..] => append_segment_codes(alloc, out, codes),
    }
}

fn append_element_words(
    alloc: Global,
    out: &mut Vec<u8>,
    codes: &[ElementCode],
) -> Result<(), NoMemory>
    ensures { OnOk result (out.new.items ≡ out.old.items ++ rules.element_words codes.now) }
{
    match codes {
        [] => append_fixed(out, b"none. "),
        [..] => append_element_codes(alloc, out, codes),
    }
}

fn append_tolerated_codes(
    alloc: Global,
    out: &mut Vec<u8>,
    segments: &[SegmentCode],
    elements: &[ElementCode],
) -> Result<(), NoMemory>
    ensures { OnOk result (out.new.items ≡ out.old.items ++ rules.tolerated_part segments.now elements.now) }
{
    append_fixed(
        out,
        b"<h2>Tolerated</h2>\n<p>A set with an error is rejected, unless each of its errors has one of these codes. In a segment (IK304): ",
    )?;
    append_segment_words(alloc, out, segments)?;
    append_fixed(out, b"In an element (IK403): ")?;
    append_element_words(alloc, out, elements)?;
    append_fixed(out, b"</p>\n")
}

/// Appends the errors with which a set is accepted.
pub(crate) fn append_tolerated(
    alloc: Global,
    out: &mut Vec<u8>,
    head: &GuideHead,
) -> Result<(), NoMemory>
    ensures { OnOk result (out.new.items ≡ out.old.items
        ++ rules.tolerated_part head.now.tolerate_segment head.now.tolerate_element) }
{
    append_tolerated_codes(
        alloc,
        out,
        head.tolerate_segment.as_slice(),
        head.tolerate_element.as_slice(),
    )
}

/// Appends the dependencies, if the guide has any.
pub(crate) fn append_depends(
    alloc: Global,
    out: &mut Vec<u8>,
    rows: &GuideRows,
) -> Result<(), NoMemory>
    ensures { OnOk result (out.new.items ≡ out.old.items ++ rules.depends_part rows.now.depends) }
{
    append_depends_if(alloc, out, rows.depends.as_slice())
}
