ghost use Rattle.std.specs.Prelude.{◌≡◌, ◌<◌, ℕ, List, length};
ghost use Rattle.setup_errors.specs.Named as names;

use hub_kinds::Text;
use partner_setup::{CounterRow, PartnerRow, RouteRow};

/// What has a name.
pub trait Named {
    /// The name.
    ghost name: { Self → List ℕ };

    /// The name.
    fn name(&self) -> &[u8]
        ensures { result.now ≡ name self.now };
}

impl Named for PartnerRow {
    ghost name = { names.partner_name };

    fn name(&self) -> &[u8] {
        self.name.as_slice()
    }
}

impl Named for RouteRow {
    ghost name = { names.route_name };

    fn name(&self) -> &[u8] {
        self.code.as_slice()
    }
}

impl Named for CounterRow {
    ghost name = { names.counter_name };

    fn name(&self) -> &[u8] {
        self.partner.as_slice()
    }
}

/// A text is its own name.
impl Named for Text {
    ghost name = { λ text. text };

    fn name(&self) -> &[u8] {
        self.as_slice()
    }
}

/// The number, from 1 on, of the first row after this place that has the name.
pub(crate) fn next_named<T: Named>(rows: &[T], place: usize, text: &[u8]) -> Option<u64>
    requires { place < length rows.now }
    ensures { result ≡ names.next_named T.name rows.now place text.now }
{
    for i in place + 1..rows.len() {
        if rows[i].name() == text {
            return Some(i as u64 + 1);
        }
    }
    None
}

/// The number, from 1 on, of the first partner after this place that has the qualifier and the id.
pub(crate) fn next_sender(
    partners: &[PartnerRow],
    place: usize,
    qualifier: &[u8],
    id: &[u8],
) -> Option<u64>
    requires { place < length partners.now }
    ensures { result ≡ names.next_sender partners.now place qualifier.now id.now }
{
    for i in place + 1..partners.len() {
        if partners[i].qualifier.as_slice() == qualifier && partners[i].id.as_slice() == id {
            return Some(i as u64 + 1);
        }
    }
    None
}
