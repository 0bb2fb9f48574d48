ghost use Rattle.std.specs.Prelude.{◌≡◌, ℕ, List, Bool};
ghost use Rattle.x12_bytes.specs.declared.delims.Delims.{Delims};
ghost use Rattle.x12_segs.specs.Words.{IsSetSpan};
ghost use Rattle.set_check.specs.Checked.{Checked, IsChecked};
ghost use Rattle.set_check.specs.Answer.{answer_to};
ghost use Rattle.partner_setup.specs.Setup.{SetupValue};
ghost use Rattle.answered_sets.specs.Judged.{PlacedValue};
ghost use Rattle.mailbox.specs.Deliveries.{outcomes};
ghost use Rattle.mailbox.specs.Mailbox.{set_text};
ghost use Rattle.night_stream.specs.MovedSets.{moved_checked, moved_placed};
ghost use Rattle.night_stream.specs.Within.{IsWithinText};

/// A theorem, with nothing to run: a set that is checked in a batch is checked in the whole text, with the same answer; and the outcome of
/// it for each receiver, and what is written of it, is the same.
pub fn sets_are_placed_alike()
    ensures checked { (before behind : List ℕ) (c : Checked) → IsSetSpan c.text c.span → IsChecked c
        → IsChecked (moved_checked before behind c) }
    ensures answered { (before behind : List ℕ) (c : Checked) (earlier : Bool) → IsSetSpan c.text c.span
        → answer_to (moved_checked before behind c) earlier ≡ answer_to c earlier }
    ensures delivered { (before behind : List ℕ) (setup : SetupValue) (p : PlacedValue) → IsWithinText p
        → outcomes setup (moved_placed before behind p) ≡ outcomes setup p }
    ensures written { (before behind : List ℕ) (to : Delims) (p : PlacedValue) (n : ℕ) → IsWithinText p
        → set_text to (moved_placed before behind p) n ≡ set_text to p n }
{}
