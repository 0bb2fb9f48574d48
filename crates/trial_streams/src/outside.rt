//! What is outside of interchanges.
use crate::texts::seen;
use std::alloc::Global;
use std::test::Fail;

/// A text, and up to where no header may begin in it.
const CASES: &[(&[u8], usize)] = &[
    (b"", 0),
    (b"HELLO\r\n", 7),
    (b"HISTORY", 7),
    (b"HI", 1),
    (b"HIS", 1),
    (b"HISA*00*", 1),
    (b"HISAI", 4),
    (b"HISA*ISA", 5),
    (b"HISA*IEA*0*1~", 13),
];

fn expect(alloc: Global, text: &[u8], at: usize) -> Result<(), Fail> {
    let found = seen(text);
    if found == (at, false, false) {
        return Ok(());
    }
    Err(Fail::new(format!(in alloc; "{} bytes, {at}: {found:?}", text.len())?))
}

#[test]
fn text_outside_is_passed_over(rt: HostRuntime) -> Result<(), Fail> {
    for (text, at) in CASES {
        expect(rt.alloc(), text, *at)?;
    }
    Ok(())
}

/// A word, many times; the last bytes alone may begin a header.
#[test]
fn words_of_a_header_many_times(rt: HostRuntime) -> Result<(), Fail> {
    let words: [(&[u8], usize); 3] = [(b"ISA", 59_997), (b"ISA*", 79_996), (b"I", 19_999)];
    for (word, at) in words {
        let mut text = Vec::new(rt.alloc());
        for _ in 0..20_000 {
            text.extend_from_slice(word)?;
        }
        expect(rt.alloc(), text.as_slice(), at)?;
    }
    Ok(())
}
