//! What a warning says of a setup that is accepted.
ghost use Rattle.std.specs.Prelude.{◌≡◌, ◌++◌, ℕ, List, IfOk, OnOk};
ghost use Rattle.setup_errors.specs.SetupWarnings as warnings;

use crate::doubtful_partners::push_delimiters;
use crate::kept_rows::KeptRows;
use crate::named_alike::push_named_alike;
use crate::sentence::{Detail, Sentence, in_place, push_told};
use crate::words::{NO_ROUTE, PARTNER, UNNAMED_GUIDE};
use guide_tree::Codes;
use hub_kinds::{Items, NoMemory, Text, Texts, copy_text};
use partner_setup::{PartnerRow, RouteRow};
use std::alloc::Global;

/// What names others.
trait Naming: Drop {
    /// The names.
    ghost named: { Self → List (List ℕ) };

    /// The names.
    fn named(&self) -> &[Text]
        ensures { result.now ≡ named self.now };
}

impl Naming for PartnerRow {
    ghost named = { warnings.guides_of };

    fn named(&self) -> &[Text] {
        self.guides.as_slice()
    }
}

impl Naming for RouteRow {
    ghost named = { warnings.receivers_of };

    fn named(&self) -> &[Text] {
        self.to.as_slice()
    }
}

fn push_copies(alloc: Global, names: &mut Vec<Text>, more: &[Text]) -> Result<(), NoMemory>
    ensures { OnOk result (names.new.items ≡ names.old.items ++ more.now) }
{
    for i in 0..more.len() {
        names.push(copy_text(alloc, more[i].as_slice())?)?;
    }
    Ok(())
}

/// All that some rows name, in an order by which a name is found.
fn names_in<T: Naming>(alloc: Global, rows: &[T]) -> Result<Codes, NoMemory>
    ensures { IfOk result (λ names. names ≡ warnings.names_in T.named rows.now) }
{
    let mut names = Vec::new(alloc);
    for i in 0..rows.len() {
        push_copies(alloc, &mut names, rows[i].named())?;
    }
    Codes::new(alloc, Items::from_vec(names))
}

fn push_guide(
    alloc: Global,
    found: &mut Vec<Text>,
    named: &Codes,
    guide: &[u8],
) -> Result<(), NoMemory>
    ensures { OnOk result (found.new.items ≡ found.old.items ++ warnings.guide_warning named.now guide.now) }
{
    if named.contains(guide) {
        return Ok(());
    }
    let text = Sentence::One(UNNAMED_GUIDE, Detail::Text(guide));
    push_told(alloc, found, Sentence::Plain(""), Some(text))
}

fn push_guides(
    alloc: Global,
    found: &mut Vec<Text>,
    named: &Codes,
    guides: &[Text],
) -> Result<(), NoMemory>
    ensures { OnOk result (found.new.items ≡ found.old.items ++ warnings.guide_warnings named.now guides.now) }
{
    for i in 0..guides.len() {
        push_guide(alloc, found, named, guides[i].as_slice())?;
    }
    Ok(())
}

fn push_partner(
    alloc: Global,
    found: &mut Vec<Text>,
    reached: &Codes,
    number: u64,
    partner: &PartnerRow,
) -> Result<(), NoMemory>
    ensures { OnOk result (found.new.items ≡ found.old.items ++ warnings.partner_warning reached.now number partner.now) }
{
    let place = in_place(PARTNER, number, partner.name.as_slice());
    if reached.contains(partner.name.as_slice()) {
        return push_delimiters(alloc, found, place, partner);
    }
    push_told(alloc, found, place, Some(Sentence::Plain(NO_ROUTE)))
}

fn push_partners(
    alloc: Global,
    found: &mut Vec<Text>,
    reached: &Codes,
    partners: &[PartnerRow],
) -> Result<(), NoMemory>
    ensures { OnOk result (found.new.items ≡ found.old.items ++ warnings.partner_warnings reached.now 1 partners.now) }
{
    for i in 0..partners.len() {
        push_partner(alloc, found, reached, i as u64 + 1, &partners[i])?;
    }
    Ok(())
}

/// The warnings of a setup of which these rows are kept, in words: the partners whose name differs from an earlier one's in case alone;
/// those that no route leads to, or that receive by delimiters which texts often hold; then the guides that no partner names. The only
/// error is out of memory.
pub fn setup_warning_texts(alloc: Global, kept: &KeptRows) -> Result<Texts, NoMemory>
    ensures { IfOk result (λ texts. texts ≡ warnings.setup_warnings kept.now) }
{
    let mut found = Vec::new(alloc);
    let partners = kept.rows.partners.as_slice();
    let reached = names_in(alloc, kept.rows.routes.as_slice())?;
    let named = names_in(alloc, partners)?;
    push_named_alike(alloc, &mut found, partners)?;
    push_partners(alloc, &mut found, &reached, partners)?;
    push_guides(alloc, &mut found, &named, kept.guides.as_slice())?;
    Ok(Items::from_vec(found))
}
