ghost use Rattle.std.specs.Prelude.{◌≡◌};
ghost use Rattle.night_report.specs.Report as report;

use partner_setup::Setup;

/// The name of the partner at `place` of `setup`; `?` if there is none.
pub fn partner_name(setup: &Setup, place: usize) -> &[u8]
    ensures { result.now ≡ report.partner_name setup.entry.now place }
{
    match setup.partner_at(place) {
        None => b"?",
        Some(partner) => partner.name.as_slice(),
    }
}

/// The name of `sender`, a partner by its place in `setup`; `?` if the sender is unknown.
pub fn sender_name<'s>(setup: &'s Setup, sender: Option<usize>) -> &'s [u8]
    ensures { result.now ≡ report.sender_name setup.entry.now sender }
{
    match sender {
        None => b"?",
        Some(sender) => partner_name(setup, sender),
    }
}
