ghost use Rattle.std.specs.Prelude.{◌≡◌, ◌++◌, OnOk};
ghost use Rattle.breach_lines.specs.Lines as lines;

use crate::key::{append_interchange, append_receipt, append_set};
use crate::words::{
    append, append_line, append_name, append_named, append_night, append_numbers, append_text,
};
use hub_kinds::NoMemory;
use night_breaches::{
    Breach, FileFault, LastNight, LateMoment, MomentBack, NumberBreak, SecondDelivery, WrongFile,
};
use std::alloc::Global;

fn append_delivered(out: &mut Vec<u8>, breach: &SecondDelivery<'_>) -> Result<(), NoMemory>
    ensures { OnOk result (out.new.items ≡ out.old.items ++ lines.delivered_words breach.now) }
{
    append_night(out, breach.night.bytes())?;
    append_delivery(out, breach.key.bytes(), breach.earlier.bytes())
}

/// Appends to `out` that the set of this `key` was delivered in the night `earlier`. The only error is out of memory.
pub fn append_delivery(out: &mut Vec<u8>, key: &[u8], earlier: &[u8]) -> Result<(), NoMemory>
    ensures { OnOk result (out.new.items ≡ out.old.items ++ lines.delivery_words key.now earlier.now) }
{
    append_set(out, key)?;
    append_interchange(out, key)?;
    append_receipt(out, key, earlier)
}

fn append_begun(out: &mut Vec<u8>, breach: &NumberBreak<'_>) -> Result<(), NoMemory>
    ensures { OnOk result (out.new.items ≡ out.old.items ++ lines.begun_words breach.now) }
{
    append(out, breach.partner.bytes())?;
    append_name(out, " (", &breach.address)?;
    append_numbers(out, ") begins at ", breach.begun)
}

fn append_left(out: &mut Vec<u8>, breach: &NumberBreak<'_>) -> Result<(), NoMemory>
    ensures { OnOk result (out.new.items ≡ out.old.items ++ lines.left_words breach.now) }
{
    append_name(out, ", and night ", &breach.earlier)?;
    append_numbers(out, " left ", breach.left)?;
    append_name(out, " to ", &breach.was)
}

fn append_break(out: &mut Vec<u8>, breach: &NumberBreak<'_>) -> Result<(), NoMemory>
    ensures { OnOk result (out.new.items ≡ out.old.items ++ lines.break_words breach.now) }
{
    append_night(out, breach.night.bytes())?;
    append_begun(out, breach)?;
    append_left(out, breach)
}

fn fault_words(fault: FileFault) -> &'static str
    ensures { result.now ≡ lines.fault_words fault }
{
    match fault {
        FileFault::OfNoPartner => " is of no partner",
        FileFault::NotListed => " isn't listed in sums",
        FileFault::Changed => " isn't the file that sums lists",
    }
}

fn append_file(out: &mut Vec<u8>, breach: &WrongFile<'_>) -> Result<(), NoMemory>
    ensures { OnOk result (out.new.items ≡ out.old.items ++ lines.file_words breach.now) }
{
    append_night(out, breach.night.bytes())?;
    append(out, breach.file.bytes())?;
    append_text(out, fault_words(breach.fault))
}

fn append_back(out: &mut Vec<u8>, breach: &MomentBack<'_>) -> Result<(), NoMemory>
    ensures { OnOk result (out.new.items ≡ out.old.items ++ lines.back_words breach.now) }
{
    append_name(out, "its moment ", &breach.moment)?;
    append_name(out, " is before ", &breach.was)?;
    append_name(out, " of night ", &breach.earlier)
}

fn append_late(out: &mut Vec<u8>, breach: &LateMoment<'_>) -> Result<(), NoMemory>
    ensures { OnOk result (out.new.items ≡ out.old.items ++ lines.late_words breach.now) }
{
    append_name(out, "its moment ", &breach.moment)?;
    append_text(out, " is ahead of the clock")
}

fn append_last(out: &mut Vec<u8>, breach: &LastNight<'_>) -> Result<(), NoMemory>
    ensures { OnOk result (out.new.items ≡ out.old.items ++ lines.last_words breach.now) }
{
    append_named(out, "the last night is ", &breach.last)?;
    append_named(out, ", and .last names ", &breach.named)
}

fn append_words(out: &mut Vec<u8>, breach: &Breach<'_>) -> Result<(), NoMemory>
    ensures { OnOk result (out.new.items ≡ out.old.items ++ lines.breach_words breach.now) }
{
    match breach {
        Breach::DeliveredTwice(breach) => append_delivered(out, breach),
        Breach::NumbersBreak(breach) => append_break(out, breach),
        Breach::File(breach) => append_file(out, breach),
        Breach::MomentBack(breach) => {
            append_night(out, breach.night.bytes())?;
            append_back(out, breach)
        }
        Breach::LateMoment(breach) => {
            append_night(out, breach.night.bytes())?;
            append_late(out, breach)
        }
        Breach::LastNight(breach) => append_last(out, breach),
    }
}

/// Appends the line on a breach.
fn append_breach(alloc: Global, out: &mut Vec<u8>, breach: &Breach<'_>) -> Result<(), NoMemory>
    ensures { OnOk result (out.new.items ≡ out.old.items ++ lines.line_of (lines.breach_words breach.now)) }
{
    let mut words = Vec::new(alloc);
    append_words(&mut words, breach)?;
    append_line(out, words.as_slice())
}

/// Appends a line for each breach.
pub(crate) fn append_breaches(
    alloc: Global,
    out: &mut Vec<u8>,
    found: &[Breach<'_>],
) -> Result<(), NoMemory>
    ensures { OnOk result (out.new.items ≡ out.old.items ++ lines.breach_lines found.now) }
{
    for i in 0..found.len() {
        append_breach(alloc, out, &found[i])?;
    }
    Ok(())
}
