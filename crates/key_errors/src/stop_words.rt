//! Where the text of a data element's row stops, in words.
ghost use Rattle.std.specs.Prelude.{◌≡◌, ◌++◌, OnOk};
ghost use Rattle.key_errors.specs.StopWords as words;

use crate::shown::append_shown_text;
use crate::words::{
    CODE, COMPONENT, COMPONENT_TYPE, COMPONENTS, ELEMENT_TYPE, END, ENDS, LONGEST, NOT_HERE,
    OPTIONS, REFERENCE, REQUIREMENT, SHORTEST, SPACE, UNUSED_CODE,
};
use guide_toml::{ElementStop, Wanted};
use hub_kinds::{Lent, NoMemory};
use setup_errors::{Detail, Sentence, append, append_sentence};

/// What may be there.
fn wanted_words(wanted: Wanted) -> &'static str
    ensures { result.now ≡ words.wanted_words wanted }
{
    match wanted {
        Wanted::Reference => REFERENCE,
        Wanted::Requirement => REQUIREMENT,
        Wanted::ElementType => ELEMENT_TYPE,
        Wanted::ComponentType => COMPONENT_TYPE,
        Wanted::Shortest => SHORTEST,
        Wanted::Longest => LONGEST,
        Wanted::Options => OPTIONS,
        Wanted::Code => CODE,
        Wanted::UnusedCode => UNUSED_CODE,
        Wanted::Components => COMPONENTS,
        Wanted::End => END,
    }
}

fn append_component(out: &mut Vec<u8>, component: usize) -> Result<(), NoMemory>
    ensures { OnOk result (out.new.items ≡ out.old.items ++ words.component_words component) }
{
    if component == 0 {
        return Ok(());
    }
    let number = Detail::Number(component as u64);
    append_sentence(out, Sentence::One(COMPONENT, number))
}

fn append_token(out: &mut Vec<u8>, token: &[u8]) -> Result<(), NoMemory>
    ensures { OnOk result (out.new.items ≡ out.old.items ++ words.token_text token.now) }
{
    if token.is_empty() {
        append(out, SPACE.as_bytes())
    } else {
        append_shown_text(out, token)
    }
}

fn append_at(out: &mut Vec<u8>, token: &Option<Lent<'_>>, wanted: Wanted) -> Result<(), NoMemory>
    ensures { OnOk result (out.new.items ≡ out.old.items ++ words.token_words token.now wanted) }
{
    let wanted = Detail::Text(wanted_words(wanted).as_bytes());
    match token {
        None => append_sentence(out, Sentence::One(ENDS, wanted)),
        Some(token) => {
            append_token(out, token.bytes())?;
            append_sentence(out, Sentence::One(NOT_HERE, wanted))
        }
    }
}

/// Adds where the text of a data element's row stops, and what may be there.
pub(crate) fn append_stop(out: &mut Vec<u8>, stop: &ElementStop<'_>) -> Result<(), NoMemory>
    ensures { OnOk result (out.new.items ≡ out.old.items ++ words.stop_words stop.now) }
{
    append_component(out, stop.component)?;
    append_at(out, &stop.token, stop.wanted)
}
