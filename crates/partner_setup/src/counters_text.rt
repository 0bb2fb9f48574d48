ghost use Rattle.std.specs.Prelude.{◌≡◌, ◌++◌, length, IfOk, OnOk};
ghost use Rattle.partner_setup.specs.CountersText as written;

use crate::partner::Partner;
use crate::setup::Setup;
use hub_kinds::{Counters, Items, NoMemory, Text};
use itoa::Buffer;
use std::alloc::Global;

fn append_number(out: &mut Vec<u8>, key: &[u8], number: u32) -> Result<(), NoMemory>
    ensures { OnOk result (out.new.items ≡ out.old.items ++ written.number_line key.now number) }
{
    let mut digits = Buffer::new();
    out.extend_from_slice(key)?;
    out.extend_from_slice(b" = ")?;
    out.extend_from_slice(digits.format(number).as_bytes())?;
    out.push(b'\n')?;
    Ok(())
}

fn append_name(out: &mut Vec<u8>, name: &[u8]) -> Result<(), NoMemory>
    ensures { OnOk result (out.new.items ≡ out.old.items ++ written.name_lines name.now) }
{
    out.extend_from_slice(b"\n[[counter]]\npartner = \"")?;
    out.extend_from_slice(name)?;
    out.extend_from_slice(b"\"\n")?;
    Ok(())
}

fn append_numbers(out: &mut Vec<u8>, counters: &Counters) -> Result<(), NoMemory>
    ensures { OnOk result (out.new.items ≡ out.old.items ++ written.number_lines counters.now) }
{
    append_number(out, b"interchange", counters.interchange)?;
    append_number(out, b"group", counters.group)?;
    append_number(out, b"set", counters.set)?;
    Ok(())
}

fn append_counter(out: &mut Vec<u8>, name: &[u8], counters: &Counters) -> Result<(), NoMemory>
    ensures { OnOk result (out.new.items ≡ out.old.items ++ written.counter_lines name.now counters.now) }
{
    append_name(out, name)?;
    append_numbers(out, counters)
}

fn append_all(out: &mut Vec<u8>, partners: &[Partner], next: &[Counters]) -> Result<(), NoMemory>
    requires { length next.now ≡ length partners.now }
    ensures { OnOk result (out.new.items ≡ out.old.items ++ written.counters_lines partners.now next.now) }
{
    for i in 0..partners.len() {
        append_counter(out, partners[i].name.as_slice(), &next[i])?;
    }
    Ok(())
}

impl Setup {
    ghost use Rattle.std.specs.Prelude.{◌≡◌, length, IfOk};
    ghost use Rattle.partner_setup.specs.CountersText as written;

    /// The counters file of the next night, in version 2: for each partner, in their order, the numbers from which it continues.
    /// The only error is out of memory.
    pub fn counters_text(&self, alloc: Global, next: &[Counters]) -> Result<Text, NoMemory>
        requires { length next.now ≡ length self.now.partners }
        ensures { IfOk result (λ text. text ≡ written.counters_text self.now next.now) }
    {
        let mut out = Vec::new(alloc);
        out.extend_from_slice(b"version = 2\n")?;
        append_all(&mut out, self.partners(), next)?;
        Ok(Items::from_vec(out))
    }
}
