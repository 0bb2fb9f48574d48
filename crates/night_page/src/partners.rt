ghost use Rattle.std.specs.Prelude.{◌≡◌, ◌++◌, ◌∷◌, [], IfOk, OnOk, filter, map};
ghost use Rattle.std.specs.List.{flat_map};
ghost use Rattle.csv.specs.Records.{fields_of};
ghost use Rattle.hub_kinds.specs.Rising.{IsRisingBy};
ghost use Rattle.night_search.specs.Lines as lines;
ghost use Rattle.night_page.specs.Names as names;
ghost use Rattle.night_page.specs.Page as page;
ghost use Rattle.night_page.specs.Rows.{is_delivered};

use crate::name::{Name, has_name, names_in_order};
use crate::rows::is_delivered;
use crate::tags::{append_between, append_fixed, append_table_head, append_tagged};
use crate::told::PartnerTold;
use csv::ByteRecord;
use csv_fields::columns::{RECEIVER, SENDER};
use hub_kinds::{NoMemory, copy_text};
use std::alloc::Global;
use track_read::field;

/// Who is named as the sender of some row.
fn senders(alloc: Global, rows: &[ByteRecord]) -> Result<Vec<Name>, NoMemory>
    ensures { IfOk result (λ found. names.AreNames (map lines.sender (map fields_of rows.now)) found.items) }
{
    Ok(names_in_order(senders_found(alloc, rows)?))
}

fn senders_found(alloc: Global, rows: &[ByteRecord]) -> Result<Vec<Name>, NoMemory>
    ensures { IfOk result (λ found. names.texts_of found.items ≡ map lines.sender (map fields_of rows.now)) }
{
    let mut found = Vec::new(alloc);
    for i in 0..rows.len() {
        found.push(Name {
            text: copy_text(alloc, field(&rows[i], SENDER))?,
        })?;
    }
    Ok(found)
}

/// Who is named as the receiver of some delivery.
fn receivers(alloc: Global, rows: &[ByteRecord]) -> Result<Vec<Name>, NoMemory>
    ensures { IfOk result (λ found. names.AreNames (map lines.receiver (filter is_delivered (map fields_of rows.now))) found.items) }
{
    Ok(names_in_order(receivers_found(alloc, rows)?))
}

fn push_receiver(alloc: Global, found: &mut Vec<Name>, row: &ByteRecord) -> Result<(), NoMemory>
    ensures { OnOk result (names.texts_of found.new.items
        ≡ names.texts_of found.old.items ++ map lines.receiver (filter is_delivered (fields_of row.now ∷ []))) }
{
    if is_delivered(row) {
        found.push(Name {
            text: copy_text(alloc, field(row, RECEIVER))?,
        })?;
    }
    Ok(())
}

fn receivers_found(alloc: Global, rows: &[ByteRecord]) -> Result<Vec<Name>, NoMemory>
    ensures { IfOk result (λ found. names.texts_of found.items ≡ map lines.receiver (filter is_delivered (map fields_of rows.now))) }
{
    let mut found = Vec::new(alloc);
    for i in 0..rows.len() {
        push_receiver(alloc, &mut found, &rows[i])?;
    }
    Ok(found)
}

fn append_answer(out: &mut Vec<u8>, has: bool) -> Result<(), NoMemory>
    ensures { OnOk result (out.new.items ≡ out.old.items ++ page.answer_words has) }
{
    if has {
        append_fixed(out, b"yes")
    } else {
        append_fixed(out, b"nothing")
    }
}

/// Appends a file of a partner, as a link from the night's folder.
fn append_link(
    alloc: Global,
    out: &mut Vec<u8>,
    partner: &[u8],
    kind: &[u8],
) -> Result<(), NoMemory>
    ensures { OnOk result (out.new.items ≡ out.old.items ++ page.link_part partner.now kind.now) }
{
    append_tagged(alloc, out, b"<a href=\"out/", partner, kind)?;
    append_between(out, b"\">", kind, b"</a> ")
}

fn append_partner(
    alloc: Global,
    out: &mut Vec<u8>,
    partner: &[u8],
    has_sent: bool,
    has_received: bool,
) -> Result<(), NoMemory>
    ensures { OnOk result (out.new.items ≡ out.old.items ++ page.partner_part partner.now has_sent has_received) }
{
    append_tagged(alloc, out, b"<tr><th scope=\"row\">", partner, b"</th><td>")?;
    append_answer(out, has_sent)?;
    append_fixed(out, b"</td><td>")?;
    append_answer(out, has_received)?;
    append_fixed(out, b"</td><td>")?;
    append_link(alloc, out, partner, b".ack")?;
    append_link(alloc, out, partner, b".box")?;
    append_fixed(out, b"</td></tr>\n")
}

fn append_among(
    alloc: Global,
    out: &mut Vec<u8>,
    senders: &[Name],
    receivers: &[Name],
    told: &PartnerTold,
) -> Result<(), NoMemory>
    requires senders { IsRisingBy names.text_of senders.now }
    requires receivers { IsRisingBy names.text_of receivers.now }
    ensures { OnOk result (out.new.items ≡ out.old.items
        ++ page.partner_among (names.texts_of senders.now) (names.texts_of receivers.now) told.now) }
{
    let partner = told.partner.as_slice();
    let has_sent = has_name(senders, partner);
    let has_received = has_name(receivers, partner);
    append_partner(alloc, out, partner, has_sent, has_received)
}

fn append_all(
    alloc: Global,
    out: &mut Vec<u8>,
    senders: &[Name],
    receivers: &[Name],
    partners: &[PartnerTold],
) -> Result<(), NoMemory>
    requires senders { IsRisingBy names.text_of senders.now }
    requires receivers { IsRisingBy names.text_of receivers.now }
    ensures { OnOk result (out.new.items ≡ out.old.items
        ++ flat_map (page.partner_among (names.texts_of senders.now) (names.texts_of receivers.now)) partners.now) }
{
    for i in 0..partners.len() {
        append_among(alloc, out, senders, receivers, &partners[i])?;
    }
    Ok(())
}

/// Appends the table of partners: whether each sent and received something because of `rows`, and its files.
pub(crate) fn append_partners(
    alloc: Global,
    out: &mut Vec<u8>,
    rows: &[ByteRecord],
    partners: &[PartnerTold],
) -> Result<(), NoMemory>
    ensures { OnOk result (out.new.items ≡ out.old.items ++ page.partners_part (map fields_of rows.now) partners.now) }
{
    let senders = senders(alloc, rows)?;
    let receivers = receivers(alloc, rows)?;
    append_fixed(out, b"<h2>Partners</h2>\n<table>\n")?;
    append_table_head(out, &[b"Partner", b"Sent", b"Received", b"Files"])?;
    append_all(
        alloc,
        out,
        senders.as_slice(),
        receivers.as_slice(),
        partners,
    )?;
    append_fixed(out, b"</tbody>\n</table>\n")
}
