use hub_ledger::NightEntry;
use moment::At;
use night_command::Sharing;
use night_shelf::NightFile;

/// The files that a hub's nights are made by.
#[derive(Clone, Copy)]
pub struct HubFiles<'a> {
    /// The bytes of the setup file.
    pub setup: &'a [u8],
    /// The guide files, in their order.
    pub guides: &'a [NightFile],
}

/// What a night is made of.
#[derive(Clone, Copy)]
pub struct Call<'a> {
    /// The files of the hub.
    pub files: HubFiles<'a>,
    /// What is kept of the older nights, the oldest first.
    pub nights: &'a [NightEntry],
    /// The bytes of a first counters file: where partners begin to whom no night has sent. Empty if there is none.
    pub first: &'a [u8],
    /// What came in.
    pub input: &'a [u8],
    /// The date and time that everything of the night bears.
    pub at: &'a At,
    /// How the work is shared, which changes nothing of the night.
    pub sharing: Sharing,
}
