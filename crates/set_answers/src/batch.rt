use moment::At;
use partner_setup::Setup;

/// By what the interchanges of a batch are answered: the setup, the moment of the night, and the text that they are in.
#[derive(Drop)]
pub(crate) struct Batch<'b, 'a> {
    pub(crate) setup: &'a Setup,
    pub(crate) at: &'b At,
    pub(crate) text: &'a [u8],
}
