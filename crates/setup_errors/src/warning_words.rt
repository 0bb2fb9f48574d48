//! The words of a warning of a guide that is accepted. `guide_warnings` says which warnings a guide has; how each reads is tested alone.
use crate::sentence::{
    Detail, Sentence, append, append_node, append_sentence, in_place, of_number,
};
use guide_warnings::{
    CodeDoubt, CodeWarning, DependencyWarning, DictionaryWarning, GroupWarning, LabelWarning,
    UnmetWarning, Warning, usual_group,
};
use hub_kinds::{Items, NoMemory, Text};
use std::alloc::Global;

fn doubt_words(doubt: CodeDoubt) -> &'static [u8] {
    match doubt {
        CodeDoubt::Joined => b" has a comma or a stroke; write a space between codes",
        CodeDoubt::OtherForm =>
            b" has bytes that no value of the element's type has, or isn't a date or time",
        CodeDoubt::OtherLength => b" is shorter or longer than the element may be",
        CodeDoubt::AlsoUnused => b" is listed as used and as not used",
        CodeDoubt::NotListed => b" of `pick` isn't one of the element's codes",
    }
}

fn append_segment(out: &mut Vec<u8>, slot: u32, id: &[u8]) -> Result<(), NoMemory> {
    append_sentence(out, in_place("segment", u64::from(slot), id))
}

fn append_code(out: &mut Vec<u8>, warning: &CodeWarning) -> Result<(), NoMemory> {
    append_segment(out, warning.slot, warning.id.as_slice())?;
    append_sentence(out, of_number("element _", warning.at.element))?;
    if warning.at.component != 0 {
        append_sentence(out, of_number(", component _", warning.at.component))?;
    }
    let code = Detail::Text(warning.code.as_slice());
    append_sentence(out, Sentence::One(": the code _", code))?;
    append(out, doubt_words(warning.doubt))
}

fn append_dictionary(out: &mut Vec<u8>, warning: &DictionaryWarning) -> Result<(), NoMemory> {
    append_segment(out, warning.slot, warning.id.as_slice())?;
    append(out, b"its id is in `dictionary` too, where it does nothing")
}

fn append_label(out: &mut Vec<u8>, warning: &LabelWarning) -> Result<(), NoMemory> {
    append_segment(out, warning.slot, warning.id.as_slice())?;
    let label = Detail::Text(warning.label.as_slice());
    append_sentence(out, Sentence::One("no dependency names its label _", label))
}

fn append_dependency(out: &mut Vec<u8>, warning: &DependencyWarning) -> Result<(), NoMemory> {
    append_sentence(out, of_number("dependency _: ", warning.dependency))?;
    let code = Detail::Text(warning.code.as_slice());
    let element = Detail::Number(u64::from(warning.element));
    append_sentence(
        out,
        Sentence::Two("the code _ isn't one of element _ of ", code, element),
    )?;
    append_node(out, "segment _", warning.slot, warning.id.as_slice())
}

fn append_unmet(out: &mut Vec<u8>, warning: &UnmetWarning) -> Result<(), NoMemory> {
    append(out, b"no set can meet this: ")?;
    append_segment(out, warning.slot, warning.id.as_slice())?;
    append_sentence(
        out,
        of_number(
            "element _ is mandatory, and its type or its lengths allow none of its codes",
            warning.element,
        ),
    )
}

fn append_group(out: &mut Vec<u8>, warning: &GroupWarning) -> Result<(), NoMemory> {
    let set = warning.set.as_slice();
    append_sentence(
        out,
        Sentence::Three(
            "`group` is _, and sets _ usually come in groups _",
            Detail::Text(warning.group.as_slice()),
            Detail::Text(set),
            Detail::Text(usual_group(set)),
        ),
    )
}

/// What `warning` says of a guide that is accepted. The only error is out of memory.
pub fn warning_text(alloc: Global, warning: &Warning) -> Result<Text, NoMemory> {
    let mut out = Vec::new(alloc);
    match warning {
        Warning::UnusualGroup(warning) => append_group(&mut out, warning)?,
        Warning::HeaderLetThrough => append(
            &mut out,
            b"a segment that the guide doesn't know is accepted, also one that begins with ISA: a receiver may read it as a header",
        )?,
        Warning::IdInDictionary(warning) => append_dictionary(&mut out, warning)?,
        Warning::Code(warning) => append_code(&mut out, warning)?,
        Warning::UnnamedLabel(warning) => append_label(&mut out, warning)?,
        Warning::CodeOfDependency(warning) => append_dependency(&mut out, warning)?,
        Warning::Unmet(warning) => append_unmet(&mut out, warning)?,
    }
    Ok(Items::from_vec(out))
}
