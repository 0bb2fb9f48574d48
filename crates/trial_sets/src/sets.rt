//! What is found in the sets of an interchange.
ghost use Rattle.std.specs.List.{All};
ghost use Rattle.x12_segs.specs.Words.{IsSetSpan};
ghost use Rattle.env_index.specs.Words.{HasSpans, span_of};

use super::guides::guide_of;
use env_index::{GroupEnvelope, Interchange, read_interchange};
use guide_fast::FastGuide;
use guide_tree::Guide;
use hub_kinds::{ElemFault, Fault, Faults, SetCode, code_text, within_limit};
use set_check::{CheckedSet, check_set, check_set_fast};
use std::alloc::Global;
use std::test::Fail;
use x12_bytes::Delims;
use x12_segs::SetSpan;

/// The header of an interchange.
const FRONT: &[u8] =
    b"ISA*00*          *00*          *01*ACME           *ZZ*HUB            *260228*0900*^*00501*000000007*0*P*>~";

/// Adds a number and the byte after it.
fn add_number(out: &mut Vec<u8>, alloc: Global, number: u64, behind: u8) -> Result<(), Fail> {
    out.extend_from_slice(format!(in alloc; "{number}")?.as_bytes())?;
    out.push(behind)?;
    Ok(())
}

/// Adds a text and the byte after it.
fn add_text(out: &mut Vec<u8>, text: &[u8], behind: u8) -> Result<(), Fail> {
    out.extend_from_slice(text)?;
    out.push(behind)?;
    Ok(())
}

fn add_elem(out: &mut Vec<u8>, alloc: Global, elem: &ElemFault) -> Result<(), Fail> {
    add_number(out, alloc, u64::from(elem.element), b'.')?;
    add_number(out, alloc, u64::from(elem.component), b'.')?;
    add_number(out, alloc, u64::from(elem.repetition), b' ')?;
    add_text(out, code_text(elem.code).as_bytes(), b' ')?;
    add_text(out, elem.reference.bytes(), b' ')?;
    add_text(out, elem.copy.bytes(), b';')
}

fn add_fault(out: &mut Vec<u8>, alloc: Global, fault: &Fault) -> Result<(), Fail> {
    add_number(out, alloc, fault.position, b' ')?;
    add_text(out, fault.id.bytes(), b'(')?;
    add_text(out, fault.loop_id.bytes(), b')')?;
    out.push(b' ')?;
    add_text(out, code_text(fault.code).as_bytes(), b' ')?;
    match &fault.elem {
        None => add_number(out, alloc, u64::from(fault.slot), b';'),
        Some(elem) => {
            add_number(out, alloc, u64::from(fault.slot), b' ')?;
            add_elem(out, alloc, elem)
        }
    }
}

fn add_faults(out: &mut Vec<u8>, alloc: Global, faults: &Faults) -> Result<(), Fail> {
    for i in 0..faults.len() {
        add_fault(out, alloc, &faults.at(i))?;
    }
    Ok(())
}

fn add_codes(out: &mut Vec<u8>, codes: &[SetCode]) -> Result<(), Fail> {
    for code in codes {
        out.push(b' ')?;
        out.extend_from_slice(code_text(*code).as_bytes())?;
    }
    out.push(b'\n')?;
    Ok(())
}

/// Adds what was found in a set.
fn add_found(out: &mut Vec<u8>, alloc: Global, set: &CheckedSet) -> Result<(), Fail> {
    if set.is_clean() {
        out.extend_from_slice(b" clean")?;
    }
    add_faults(out, alloc, set.faults())?;
    add_codes(out, set.codes())
}

/// Whether just this is found in a set by its guide once that is compiled.
fn expect_found(
    alloc: Global,
    text: &[u8],
    span: SetSpan,
    guide: Option<&Guide>,
    wanted: &[u8],
) -> Result<(), Fail>
    requires { IsSetSpan text.now span }
{
    let mut found = Vec::new(alloc);
    match guide {
        None => {
            let set = check_set_fast(alloc, text, span, None)?;
            add_found(&mut found, alloc, &set)?;
        }
        Some(guide) => {
            let fast = FastGuide::of(alloc, guide)?;
            let set = check_set_fast(alloc, text, span, Some(&fast))?;
            add_found(&mut found, alloc, &set)?;
        }
    }
    if found.as_slice() != wanted {
        return Err("something else is found by a compiled guide".into());
    }
    Ok(())
}

/// Adds what is found in a set, which is the same by its guide and by that compiled.
fn add_set(
    out: &mut Vec<u8>,
    alloc: Global,
    text: &[u8],
    span: SetSpan,
    guide: Option<&Guide>,
) -> Result<(), Fail>
    requires { IsSetSpan text.now span }
{
    let mut found = Vec::new(alloc);
    let set = check_set(alloc, text, span, guide)?;
    add_found(&mut found, alloc, &set)?;
    expect_found(alloc, text, span, guide, found.as_slice())?;
    out.extend_from_slice(found.as_slice())?;
    Ok(())
}

fn add_group(
    out: &mut Vec<u8>,
    alloc: Global,
    text: &[u8],
    delims: Delims,
    group: &GroupEnvelope,
    guide: Option<&Guide>,
) -> Result<(), Fail>
    requires { All (λ set. IsSetSpan text.now (span_of delims set)) group.now.sets }
{
    for index in 0..group.set_count() {
        let set = group.set(index);
        add_set(out, alloc, text, set.span(delims), guide)?;
    }
    Ok(())
}

fn add_interchange(
    out: &mut Vec<u8>,
    alloc: Global,
    text: &[u8],
    interchange: &Interchange,
    guide: Option<&Guide>,
) -> Result<(), Fail>
    requires { HasSpans text.now interchange.now }
{
    let delims = interchange.header().delims();
    for index in 0..interchange.group_count() {
        let group = interchange.group(index);
        add_group(out, alloc, text, delims, &group, guide)?;
    }
    Ok(())
}

/// An interchange of one group with this functional identifier code, whose segments after GS are these.
pub fn interchange_of(alloc: Global, group: &str, body: &str) -> Result<Vec<u8>, Fail> {
    let rest = format!(in alloc;
        "GS*{group}*ACME*BOLT*20260228*0900*12*X*005010~{body}IEA*1*000000007~"
    )?;
    let mut text = Vec::from_slice(alloc, FRONT)?;
    text.extend_from_slice(rest.as_bytes())?;
    Ok(text)
}

/// Adds what is found in each set of the interchange with which a text begins.
fn add_first(
    out: &mut Vec<u8>,
    alloc: Global,
    text: &[u8],
    guide: Option<&Guide>,
) -> Result<(), Fail> {
    if !within_limit(text.len() as u64) {
        return Err("too long".into());
    }
    match read_interchange(alloc, text, 0)? {
        None => Err("no interchange".into()),
        Some(interchange) => add_interchange(out, alloc, text, &interchange, guide),
    }
}

fn told_of(alloc: Global, guide: Option<&Guide>, text: &[u8]) -> Result<Vec<u8>, Fail> {
    let mut out = Vec::new(alloc);
    add_first(&mut out, alloc, text, guide)?;
    Ok(out)
}

/// The text of these sets as the one group of an interchange.
fn text_of(alloc: Global, sets: &str) -> Result<Vec<u8>, Fail> {
    let body = format!(in alloc; "{sets}GE*1*12~")?;
    interchange_of(alloc, "PO", body.as_str())
}

/// What is found in each of these sets of one group, written.
fn told(alloc: Global, guide: Option<&Guide>, sets: &str) -> Result<Vec<u8>, Fail> {
    let text = text_of(alloc, sets)?;
    told_of(alloc, guide, text.as_slice())
}

/// Text, beside what is made of it.
pub type Cases = &'static [[&'static str; 2]];

/// Whether what was made of a text is what is wanted.
pub fn expect_same(alloc: Global, text: &str, found: &[u8], wanted: &str) -> Result<(), Fail> {
    if found == wanted.as_bytes() {
        return Ok(());
    }
    let found = String::from_utf8_lossy(alloc, found)?;
    Err(Fail::new(format!(in alloc; "{text} gives {found}")?))
}

/// Whether just this is found in each of these sets of one group by a guide, or without one.
pub fn expect_told(
    alloc: Global,
    guide: Option<&Guide>,
    sets: &str,
    wanted: &str,
) -> Result<(), Fail> {
    let found = told(alloc, guide, sets)?;
    expect_same(alloc, sets, found.as_slice(), wanted)
}

/// Whether what comes beside each of these groups of sets is found in it by a guide, or without one.
pub fn expect_each(alloc: Global, guide: Option<&Guide>, cases: Cases) -> Result<(), Fail> {
    for [sets, wanted] in cases {
        expect_told(alloc, guide, sets, wanted)?;
    }
    Ok(())
}

/// Expects the faults by the guide of a file.
pub fn expect(alloc: Global, guide: &str, cases: Cases) -> Result<(), Fail> {
    let guide = guide_of(alloc, guide)?;
    expect_each(alloc, Some(&guide), cases)
}
