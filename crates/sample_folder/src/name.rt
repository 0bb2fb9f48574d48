ghost use Rattle.std.specs.Prelude.{◌≡◌, ◌<◌, ◌++◌, IfOk, OnOk, decimal};
ghost use Rattle.sample_folder.specs.Names.{file_name, zeros};

use hub_kinds::NoMemory;
use itoa::Buffer;
use std::alloc::Global;

/// What a number has before it, up to four digits.
fn zeros(number: u64) -> &'static [u8]
    ensures { result.now ≡ zeros number }
{
    if number < 10 {
        b"000"
    } else if number < 100 {
        b"00"
    } else if number < 1000 {
        b"0"
    } else {
        b""
    }
}

fn append(out: &mut Vec<u8>, text: &[u8]) -> Result<(), NoMemory>
    ensures { OnOk result (out.new.items ≡ out.old.items ++ text.now) }
{
    out.extend_from_slice(text)?;
    Ok(())
}

fn append_number(out: &mut Vec<u8>, number: u64) -> Result<(), NoMemory>
    ensures { OnOk result (out.new.items ≡ out.old.items ++ decimal number) }
{
    let mut digits = Buffer::new();
    append(out, digits.format(number).as_bytes())
}

/// The name of the file with a `number`, from 0. The only error is out of memory.
pub fn file_name(alloc: Global, number: u64) -> Result<Vec<u8>, NoMemory>
    requires { number < 18446744073709551615 }
    ensures { IfOk result (λ name. name.items ≡ file_name number) }
{
    let mut name = Vec::from_slice(alloc, zeros(number + 1))?;
    append_number(&mut name, number + 1)?;
    append(&mut name, b".x12")?;
    Ok(name)
}
