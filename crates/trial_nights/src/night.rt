//! What a run gives: the text of a mailbox, and why it gives nothing.
use hub_run::RunFault;
use mailbox::Woven;
use std::alloc::Global;
use std::test::Fail;

/// The text of a mailbox.
pub fn text_of(alloc: Global, mailbox: &Woven) -> Result<Vec<u8>, Fail> {
    let mut text = Vec::new(alloc);
    for part in mailbox.parts(alloc)? {
        text.extend_from_slice(part.bytes())?;
    }
    Ok(text)
}

/// Why a run gives nothing, by numbers.
const NUMBERS: &[(RunFault, u32)] = &[
    (RunFault::InputTooLong, 1),
    (RunFault::NoMemory, 2),
    (RunFault::NoThread, 3),
    (RunFault::Read, 4),
];

#[test]
fn numbers_of_runs_that_give_nothing(rt: HostRuntime) {
    for (fault, number) in NUMBERS {
        assert_eq!(rt; fault.number(), *number);
    }
}
