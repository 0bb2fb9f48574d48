ghost use Rattle.std.specs.Prelude.{◌≡◌, ◌+◌, ◌++◌, ℕ, List, length, map};
ghost use Rattle.std.specs.List.{All};
ghost use Rattle.partner_setup.specs.Setup.{SetupValue};
ghost use Rattle.answered_sets.specs.Judged.{JudgedValue, all_sets};
ghost use Rattle.mailbox.specs.Deliveries.{delivered_to};
ghost use Rattle.night_report.specs.Report.{all_lines, report_totals};
ghost use Rattle.night_report.specs.Adding.{together};
ghost use Rattle.night_stream.specs.MovedSets.{moved_judged, moved_placed};
ghost use Rattle.night_stream.specs.Within.{IsWithinText};

/// A theorem, with nothing to run: the lines and the totals of a text's report are those of its batches, one after the other, with the
/// offsets and numbers of the whole text; so are the sets that are delivered to a partner.
pub fn reports_go_on()
    ensures moved { (setup : SetupValue) (before behind : List ℕ) (n : ℕ) (xs : List JudgedValue) → All IsWithinText (all_sets xs)
        → all_lines setup 0 n (map (moved_judged before behind) xs) ≡ all_lines setup (length before) n xs }
    ensures lines { (setup : SetupValue) (base n : ℕ) (xs ys : List JudgedValue)
        → all_lines setup base n (xs ++ ys) ≡ all_lines setup base n xs ++ all_lines setup base (n + length xs) ys }
    ensures counted { (setup : SetupValue) (before behind : List ℕ) (xs : List JudgedValue) → All IsWithinText (all_sets xs)
        → report_totals setup (map (moved_judged before behind) xs) ≡ report_totals setup xs }
    ensures totals { (setup : SetupValue) (xs ys : List JudgedValue)
        → report_totals setup (xs ++ ys) ≡ together (report_totals setup xs) (report_totals setup ys) }
    ensures delivered { (setup : SetupValue) (before behind : List ℕ) (partner : ℕ) (xs : List JudgedValue)
        → All IsWithinText (all_sets xs)
        → delivered_to setup partner (map (moved_judged before behind) xs)
        ≡ map (moved_placed before behind) (delivered_to setup partner xs) }
{}
