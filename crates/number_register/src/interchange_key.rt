ghost use Rattle.std.specs.Prelude.{◌≡◌, ◌≤◌, ◌+◌, ◌++◌, length, take};
ghost use Rattle.number_register.specs.SeenNumbers.{number_key};

use x12_bytes::Header;

/// How many bytes number an interchange: ISA05 to ISA08 have 34, ISA13 has 9.
pub const KEY_LEN: usize = 43;

/// ISA05 to ISA08 and ISA13.
pub fn number_key(header: &Header<'_>) -> [u8; KEY_LEN]
    ensures { result ≡ number_key header.now }
{
    let mut key = [0; KEY_LEN];
    put(&mut key, 0, header.field(5));
    put(&mut key, 2, header.field(6));
    put(&mut key, 17, header.field(7));
    put(&mut key, 19, header.field(8));
    put(&mut key, 34, header.field(13));
    key
}

/// Writes a field at a place of a key.
fn put(key: &mut [u8; KEY_LEN], at: usize, field: &[u8])
    requires { at + length field.now ≤ 43 }
    ensures { take (at + length field.now) key.new ≡ take at key.old ++ field.now }
{
    for i in 0..field.len() {
        key[at + i] = field[i];
    }
}
