//! Which of a name, a qualifier, an id and a code hasn't its form.
ghost use Rattle.std.specs.Prelude.{◌≡◌, option_map};
ghost use Rattle.setup_errors.specs.Ids as ids;
ghost use Rattle.setup_errors.specs.Sentences.{text_of};

use crate::sentence::{Detail, Sentence};
use crate::words::{NO_CODE, NO_ID, NO_NAME, NO_QUALIFIER};
use hub_kinds::is_alphanumeric;
use partner_setup::{HubRow, PartnerRow, is_id};

/// What is wrong with an application code.
pub(crate) fn code_cause<'a>(code: &'a [u8]) -> Option<Sentence<'a>>
    ensures { option_map text_of result ≡ ids.code_cause code.entry.now }
{
    if is_id(code, 2, 15) {
        return None;
    }
    Some(Sentence::One(NO_CODE, Detail::Text(code)))
}

fn id_cause<'a>(id: &'a [u8], code: &'a [u8]) -> Option<Sentence<'a>>
    ensures { option_map text_of result ≡ ids.id_cause id.entry.now code.entry.now }
{
    if is_id(id, 1, 15) {
        return code_cause(code);
    }
    Some(Sentence::One(NO_ID, Detail::Text(id)))
}

fn ids_cause<'a>(qualifier: &'a [u8], id: &'a [u8], code: &'a [u8]) -> Option<Sentence<'a>>
    ensures { option_map text_of result ≡ ids.ids_cause qualifier.entry.now id.entry.now code.entry.now }
{
    if is_alphanumeric(qualifier, 2, 2) {
        return id_cause(id, code);
    }
    Some(Sentence::One(NO_QUALIFIER, Detail::Text(qualifier)))
}

/// Which of the hub's qualifier, id and code hasn't its form.
pub(crate) fn hub_cause<'a>(hub: &'a HubRow) -> Option<Sentence<'a>>
    ensures { option_map text_of result ≡ ids.hub_cause hub.entry.now }
{
    ids_cause(
        hub.qualifier.as_slice(),
        hub.id.as_slice(),
        hub.code.as_slice(),
    )
}

/// Which of a partner's name, qualifier, id and code hasn't its form.
pub(crate) fn partner_cause<'a>(partner: &'a PartnerRow) -> Option<Sentence<'a>>
    ensures { option_map text_of result ≡ ids.partner_cause partner.entry.now }
{
    let name = partner.name.as_slice();
    if is_alphanumeric(name, 1, 20) {
        return ids_cause(
            partner.qualifier.as_slice(),
            partner.id.as_slice(),
            partner.code.as_slice(),
        );
    }
    Some(Sentence::One(NO_NAME, Detail::Text(name)))
}
