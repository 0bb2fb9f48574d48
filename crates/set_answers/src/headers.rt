ghost use Rattle.std.specs.Prelude.{◌≡◌, ◌<◌, ℕ, List, Some, length, slice_get, IfOk, OnOk};
ghost use Rattle.set_answers.specs.Headers.{AreHeadersTo, HasHeaderTo};

use hub_kinds::NoMemory;
use moment::At;
use partner_setup::Setup;
use std::alloc::Global;
use x12_write::OutboundHeader;

/// For each partner of the setup no header yet.
pub(crate) fn no_headers(
    alloc: Global,
    setup: &Setup,
) -> Result<Vec<Option<OutboundHeader>>, NoMemory>
    ensures { IfOk result (λ v. (at : List ℕ) → AreHeadersTo setup.now at v.items) }
{
    let mut headers = Vec::new(alloc);
    for _ in 0..setup.partners().len() {
        headers.push(None)?;
    }
    Ok(headers)
}

/// Makes the header of the interchanges to a partner (X12.5, ISA), where it isn't made yet.
pub(crate) fn prepare(
    alloc: Global,
    headers: &mut [Option<OutboundHeader>],
    setup: &Setup,
    at: &At,
    place: usize,
) -> Result<(), NoMemory>
    requires within { place < length setup.now.partners }
    requires headers { AreHeadersTo setup.now at.now headers.old }
    ensures headers { OnOk result (AreHeadersTo setup.now at.now headers.new) }
    ensures there { OnOk result (HasHeaderTo place headers.new) }
{
    if headers[place].is_some() {
        return Ok(());
    }
    let header = OutboundHeader::new(alloc, &setup.envelope_to(place), at)?;
    headers[place] = Some(header);
    Ok(())
}

/// The header that was made for a partner.
pub(crate) fn prepared(headers: &[Option<OutboundHeader>], place: usize) -> &OutboundHeader
    requires { HasHeaderTo place headers.now }
    ensures { slice_get headers.now place ≡ Some (Some result.now) }
{
    match &headers[place] {
        Some(header) => header,
        None => unreachable!(),
    }
}
