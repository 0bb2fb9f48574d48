ghost use Rattle.std.specs.Prelude.{◌≡◌, ◌++◌, IfOk, OnOk};
ghost use Rattle.names_file.specs.Refused as refused;

use guide_names::{Cause, Names, NamesFault, Refused, read_names};
use hub_kinds::{Items, NoMemory, Text};
use key_errors::no_table_text;
use setup_errors::append;
use std::alloc::Global;

/// What a names file is judged as.
#[derive(Drop)]
pub enum JudgedNames {
    /// The words that it has.
    Taken(Names),
    /// Why it is refused, in words.
    Refused(Text),
}

fn cause_text(why: Cause) -> &'static [u8]
    ensures { result.now ≡ refused.cause_text why }
{
    match why {
        Cause::Unknown => b" isn't a key of its table",
        Cause::NotText => b" must be a text",
        Cause::NotTable => b" must be a table",
    }
}

fn append_further(out: &mut Vec<u8>, keys: &[Text]) -> Result<(), NoMemory>
    ensures { OnOk result (out.new.items ≡ out.old.items ++ refused.further_tables keys.now) }
{
    for i in 0..keys.len() {
        append(out, b".")?;
        append(out, keys[i].as_slice())?;
    }
    append(out, b"]: ")
}

fn append_tables(out: &mut Vec<u8>, keys: &[Text]) -> Result<(), NoMemory>
    ensures { OnOk result (out.new.items ≡ out.old.items ++ refused.tables_text keys.now) }
{
    match keys {
        [] => Ok(()),
        [key, further @ ..] => {
            append(out, b"[")?;
            append(out, key.as_slice())?;
            append_further(out, further)
        }
    }
}

fn append_quoted_key(out: &mut Vec<u8>, key: &[u8]) -> Result<(), NoMemory>
    ensures { OnOk result (out.new.items ≡ out.old.items ++ refused.key_text key.now) }
{
    append(out, b"`")?;
    append(out, key)?;
    append(out, b"`")
}

fn append_refused(out: &mut Vec<u8>, key: &Refused) -> Result<(), NoMemory>
    ensures { OnOk result (out.new.items ≡ out.old.items ++ refused.refused_text key.now) }
{
    append_tables(out, key.tables.as_slice())?;
    append_quoted_key(out, key.key.as_slice())?;
    append(out, cause_text(key.why))
}

fn refused_text(alloc: Global, key: &Refused) -> Result<Text, NoMemory>
    ensures { IfOk result (λ text. text ≡ refused.refused_text key.now) }
{
    let mut text = Vec::new(alloc);
    append_refused(&mut text, key)?;
    Ok(Items::from_vec(text))
}

/// Why bytes write no names. Out of memory says nothing of them.
fn refusal_of(alloc: Global, bytes: &[u8], fault: &NamesFault) -> Result<Text, NoMemory>
    ensures { IfOk result (refused.IsNamesSaid bytes.now fault.now) }
{
    match fault {
        NamesFault::NoMemory => Err(NoMemory),
        NamesFault::NotToml => no_table_text(alloc, bytes),
        NamesFault::Key(key) => refused_text(alloc, key),
    }
}

fn unread(alloc: Global) -> Result<Text, NoMemory>
    ensures { IfOk result (λ text. text ≡ refused.unreadable) }
{
    Ok(Items::from_vec(Vec::from_slice(alloc, b"it can't be read")?))
}

/// What a names file with these `bytes` is judged as; none if it can't be read. The only error is out of memory.
pub fn judge_names(alloc: Global, bytes: &Option<Text>) -> Result<JudgedNames, NoMemory>
    ensures { IfOk result (refused.IsNamesJudged bytes.now) }
{
    let Some(bytes) = bytes else {
        return Ok(JudgedNames::Refused(unread(alloc)?));
    };
    match read_names(alloc, bytes.as_slice()) {
        Ok(names) => Ok(JudgedNames::Taken(names)),
        Err(fault) => Ok(JudgedNames::Refused(refusal_of(alloc, bytes.as_slice(), &fault)?)),
    }
}
