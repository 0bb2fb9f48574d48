ghost use Rattle.std.specs.Prelude.{◌≡◌, ◌++◌, IfOk, OnOk, decimal};
ghost use Rattle.std.specs.List.{flat_map};
ghost use Rattle.guide_widening.specs.Differences as guides;
ghost use Rattle.guide_widening.specs.NodeDifferences as nodes;
ghost use Rattle.guide_widening.specs.Written as written;

use crate::difference::Value;
use guide_tree::{Condition, Dependency, DependencyKind, HlPair, Pick, Relation};
use hub_kinds::{Items, NoMemory, Text};
use itoa::Buffer;
use std::alloc::Global;

fn append(out: &mut Vec<u8>, text: &[u8]) -> Result<(), NoMemory>
    ensures { OnOk result (out.new.items ≡ out.old.items ++ text.now) }
{
    out.extend_from_slice(text)?;
    Ok(())
}

fn append_number(out: &mut Vec<u8>, number: u32) -> Result<(), NoMemory>
    ensures { OnOk result (out.new.items ≡ out.old.items ++ decimal number) }
{
    let mut digits = Buffer::new();
    append(out, digits.format(number).as_bytes())
}

fn append_code(out: &mut Vec<u8>, code: &[u8]) -> Result<(), NoMemory>
    ensures { OnOk result (out.new.items ≡ out.old.items ++ written.code_text code.now) }
{
    append(out, b" ")?;
    append(out, code)
}

fn append_codes(out: &mut Vec<u8>, texts: &[Text]) -> Result<(), NoMemory>
    ensures { OnOk result (out.new.items ≡ out.old.items ++ flat_map written.code_text texts.now) }
{
    for i in 0..texts.len() {
        append_code(out, texts[i].as_slice())?;
    }
    Ok(())
}

/// A pick as a value.
pub(crate) fn pick_written(alloc: Global, pick: &Pick) -> Result<Value, NoMemory>
    ensures { IfOk result (λ v. v ≡ nodes.pick_written pick.now) }
{
    let mut text = Vec::new(alloc);
    append_number(&mut text, pick.position)?;
    append_codes(&mut text, pick.codes.as_slice())?;
    Ok(Value::Text(Items::from_vec(text)))
}

fn relation_text(relation: Relation) -> &'static [u8]
    ensures { result.now ≡ written.relation_text relation }
{
    match relation {
        Relation::Paired => b"P",
        Relation::Required => b"R",
        Relation::Exclusion => b"E",
        Relation::Conditional => b"C",
        Relation::ListConditional => b"L",
    }
}

fn append_position(out: &mut Vec<u8>, position: u32) -> Result<(), NoMemory>
    ensures { OnOk result (out.new.items ≡ out.old.items ++ written.position_text position) }
{
    if position < 10 {
        append(out, b"0")?;
    }
    append_number(out, position)
}

fn append_positions(out: &mut Vec<u8>, positions: &[u32]) -> Result<(), NoMemory>
    ensures { OnOk result (out.new.items ≡ out.old.items ++ flat_map written.position_text positions.now) }
{
    for i in 0..positions.len() {
        append_position(out, positions[i])?;
    }
    Ok(())
}

/// What a guide says of a relational `condition`, as guide files write it. The only error is out of memory.
pub fn condition_written(alloc: Global, condition: &Condition) -> Result<Value, NoMemory>
    ensures { IfOk result (λ v. v ≡ nodes.condition_value condition.now) }
{
    let mut text = Vec::new(alloc);
    append(&mut text, relation_text(condition.relation))?;
    append_positions(&mut text, condition.positions.as_slice())?;
    Ok(Value::Text(Items::from_vec(text)))
}

fn level_text(level: &Option<Text>) -> &[u8]
    ensures { result.now ≡ written.level_text level.now }
{
    match level {
        None => &[],
        Some(level) => level.as_slice(),
    }
}

/// What a guide says of a `pair` of levels, the parent's first. The only error is out of memory.
pub fn pair_written(alloc: Global, pair: &HlPair) -> Result<Value, NoMemory>
    ensures { IfOk result (λ v. v ≡ guides.pair_value pair.now) }
{
    let mut text = Vec::new(alloc);
    append(&mut text, level_text(&pair.parent))?;
    append(&mut text, b"/")?;
    append(&mut text, pair.child.as_slice())?;
    Ok(Value::Text(Items::from_vec(text)))
}

fn kind_text(kind: DependencyKind) -> &'static [u8]
    ensures { result.now ≡ written.kind_text kind }
{
    match kind {
        DependencyKind::Need => b"need",
        DependencyKind::Ban => b"ban",
    }
}

fn append_quoted(out: &mut Vec<u8>, text: &[u8]) -> Result<(), NoMemory>
    ensures { OnOk result (out.new.items ≡ out.old.items ++ written.quoted text.now) }
{
    append(out, b"\"")?;
    append(out, text)?;
    append(out, b"\"")
}

fn append_more(out: &mut Vec<u8>, text: &[u8]) -> Result<(), NoMemory>
    ensures { OnOk result (out.new.items ≡ out.old.items ++ written.more_text text.now) }
{
    append(out, b", ")?;
    append_quoted(out, text)
}

fn append_rest(out: &mut Vec<u8>, texts: &[Text]) -> Result<(), NoMemory>
    ensures { OnOk result (out.new.items ≡ out.old.items ++ flat_map written.more_text texts.now) }
{
    for i in 0..texts.len() {
        append_more(out, texts[i].as_slice())?;
    }
    Ok(())
}

fn append_listed(out: &mut Vec<u8>, texts: &[Text]) -> Result<(), NoMemory>
    ensures { OnOk result (out.new.items ≡ out.old.items ++ written.listed_texts texts.now) }
{
    match texts.split_first() {
        None => Ok(()),
        Some((first, rest)) => {
            append_quoted(out, first.as_slice())?;
            append_rest(out, rest)
        }
    }
}

fn append_trigger(out: &mut Vec<u8>, depend: &Dependency) -> Result<(), NoMemory>
    ensures { OnOk result (out.new.items ≡ out.old.items ++ written.trigger_text depend.now) }
{
    append(out, b", slot=")?;
    append_quoted(out, depend.slot.as_slice())?;
    append(out, b", at=")?;
    append_number(out, depend.at)?;
    append(out, b", codes=[")?;
    append_listed(out, depend.codes.as_slice())?;
    append(out, b"]")
}

fn append_target(out: &mut Vec<u8>, depend: &Dependency) -> Result<(), NoMemory>
    ensures { OnOk result (out.new.items ≡ out.old.items ++ written.target_text depend.now) }
{
    append(out, b", target=")?;
    append_quoted(out, depend.target.as_slice())?;
    append(out, b", element=")?;
    append_number(out, depend.element)?;
    append(out, b"}")
}

/// What a guide says of a dependency, `depend`, as guide files write it. The only error is out of memory.
pub fn dependency_written(alloc: Global, depend: &Dependency) -> Result<Value, NoMemory>
    ensures { IfOk result (λ v. v ≡ guides.dependency_value depend.now) }
{
    let mut text = Vec::new(alloc);
    append(&mut text, b"{kind=")?;
    append_quoted(&mut text, kind_text(depend.kind))?;
    append_trigger(&mut text, depend)?;
    append_target(&mut text, depend)?;
    Ok(Value::Text(Items::from_vec(text)))
}
