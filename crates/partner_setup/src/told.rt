ghost use Rattle.std.specs.Prelude.{◌≡◌, ◌++◌, ◌∷◌, [], List, ℕ, Some, length, refl};
ghost use Rattle.std.specs.Ordering.{nat_cmp, ordering_then};
ghost use Rattle.std.specs.Cmp.Lexicographic.{slice_cmp};
ghost use Rattle.std.specs.Cmp.Lexicographic.{on_texts};
ghost use Rattle.std.specs.Cmp.{eq_by_cmp_equiv, partial_equiv_from_equiv, partial_order_from_total};
ghost use Rattle.std.specs.Ordering.{eq_by_cmp};
ghost use Rattle.hub_kinds.specs.Words.{order_by};
ghost use Rattle.partner_setup.specs.SetupFaults.{told, key_of_texts};

use hub_kinds::Keyed;
use std::cmp::Ordering;

/// What up to three texts tell apart.
#[derive(Drop)]
pub struct Told<'a> {
    pub first: &'a [u8],
    pub second: &'a [u8],
    pub third: &'a [u8],
}

/// What a name alone tells apart.
pub(crate) fn by_name(name: &[u8]) -> Told<'_>
    ensures first { result.first.now ≡ name.entry.now }
    ensures second { result.second.now ≡ [] }
    ensures third { result.third.now ≡ [] }
{
    Told {
        first: name,
        second: &[],
        third: &[],
    }
}

/// By their lengths, and then byte by byte.
fn order_text(a: &[u8], b: &[u8]) -> Ordering
    ensures { (r s : List ℕ) → slice_cmp nat_cmp (told a.now r) (told b.now s) ≡ ordering_then result (slice_cmp nat_cmp r s) }
{
    a.len().cmp(&b.len()).then(a.cmp(b))
}

impl<'a> Keyed for Told<'a> {
    ghost key = { λ t. key_of_texts t.first.now t.second.now t.third.now };

    fn order(&self, other: &Told<'a>) -> Ordering {
        order_text(self.first, other.first)
            .then(order_text(self.second, other.second))
            .then(order_text(self.third, other.third))
    }
}

impl<'a> PartialEq for Told<'a> {
    ghost eq = { eq_by_cmp (order_by (λ t. key_of_texts t.first.now t.second.now t.third.now)) };

    ghost laws = { partial_equiv_from_equiv (eq_by_cmp_equiv (on_texts (λ t. key_of_texts t.first.now t.second.now t.third.now))) };

    fn eq(&self, other: &Told<'a>) -> bool {
        self.order(other).is_eq()
    }
}

impl<'a> Eq for Told<'a> {
    ghost laws = { eq_by_cmp_equiv (on_texts (λ t. key_of_texts t.first.now t.second.now t.third.now)) };
}

impl<'a> PartialOrd for Told<'a> {
    ghost partial_cmp = { λ a b. Some (order_by (λ t. key_of_texts t.first.now t.second.now t.third.now) a b) };

    ghost laws = { partial_order_from_total (on_texts (λ t. key_of_texts t.first.now t.second.now t.third.now)) };

    fn partial_cmp(&self, other: &Told<'a>) -> Option<Ordering> {
        Some(self.order(other))
    }
}

impl<'a> Ord for Told<'a> {
    ghost cmp = { order_by (λ t. key_of_texts t.first.now t.second.now t.third.now) };

    ghost total = { on_texts (λ t. key_of_texts t.first.now t.second.now t.third.now) };

    ghost matches_partial_cmp = { λ a b. refl };

    ghost matches_eq = { λ a b. refl };

    fn cmp(&self, other: &Told<'a>) -> Ordering {
        self.order(other)
    }
}
