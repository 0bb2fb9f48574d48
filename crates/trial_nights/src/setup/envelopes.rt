//! The envelopes to the two partners.
use super::built::example;
use partner_setup::Setup;
use std::test::Fail;
use x12_bytes::Delims;
use x12_write::Envelope;

/// A partner's place, qualifier, id and code, and its delimiters.
const TO: &[(usize, &[u8], &[u8], &[u8], Delims)] = &[
    (
        0,
        b"01",
        b"ACME",
        b"ACME",
        Delims {
            element: b'*',
            component: b'>',
            repetition: Some(b'^'),
            terminator: b'~',
        },
    ),
    (
        1,
        b"ZZ",
        b"BOLT",
        b"BOLT",
        Delims {
            element: b'|',
            component: b':',
            repetition: Some(b'^'),
            terminator: b'!',
        },
    ),
];

fn expect_hub(envelope: &Envelope) -> Result<(), Fail> {
    if envelope.hub_qualifier.bytes() != b"ZZ".as_slice()
        || envelope.hub_id.bytes() != b"HUB".as_slice()
        || envelope.hub_code.bytes() != b"HUB".as_slice()
    {
        return Err("another hub")?;
    }
    if envelope.usage != b'P' || envelope.repetition != b'^' {
        return Err("another usage or repetition separator")?;
    }
    Ok(())
}

fn expect_envelope(setup: &Setup, case: &(usize, &[u8], &[u8], &[u8], Delims)) -> Result<(), Fail> {
    let (place, qualifier, id, code, delims) = *case;
    if setup.partners().len() <= place {
        return Err("fewer partners")?;
    }
    let envelope = setup.envelope_to(place);
    expect_hub(&envelope)?;
    if envelope.partner_qualifier.bytes() != qualifier
        || envelope.partner_id.bytes() != id
        || envelope.partner_code.bytes() != code
        || envelope.delims != delims
    {
        return Err("another partner")?;
    }
    Ok(())
}

fn expect_envelopes(
    setup: &Setup,
    cases: &[(usize, &[u8], &[u8], &[u8], Delims)],
) -> Result<(), Fail> {
    for case in cases {
        expect_envelope(setup, case)?;
    }
    Ok(())
}

#[test]
fn envelopes(rt: HostRuntime) -> Result<(), Fail> {
    expect_envelopes(&example(rt.alloc())?, TO)
}
