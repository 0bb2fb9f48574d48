ghost use Rattle.std.specs.Prelude.{◌≡◌, ◌++◌, ℕ, List, length, map};
ghost use Rattle.std.specs.List.{All};
ghost use Rattle.env_index.specs.Words.{HasSpans, IndexEntry, with_faults};
ghost use Rattle.partner_setup.specs.Setup.{SetupValue};
ghost use Rattle.whole_interchanges.specs.Moved.{moved_entry};
ghost use Rattle.night_stream.specs.MovedSets.{moved_judged};
ghost use Rattle.set_answers.specs.CheckedText.{AreAcknowledgments, AreCheckedAs, CheckedInterchange, SentValues, judged};
ghost use Rattle.set_answers.specs.Settled.{faults_from, faults_with, kept_keys, settled_faults};
ghost use Rattle.night_stream.specs.MovedAnswers.{moved_answered};

/// A theorem, with nothing to run: the answers to a batch's interchanges are those to the same interchanges of the whole text.
pub fn batches_are_answered()
    ensures moved { (before text behind : List ℕ) (setup : SetupValue) (es : List IndexEntry) (xs : List CheckedInterchange)
        → All (λ e. HasSpans text e.interchange) es → AreCheckedAs text setup es xs
        → AreCheckedAs (before ++ (text ++ behind)) setup (map (moved_entry (length before)) es)
        (map (moved_answered (length before)) xs) }
    ensures joined { (text : List ℕ) (setup : SetupValue) (es fs : List IndexEntry) (xs ys : List CheckedInterchange)
        → AreCheckedAs text setup es xs → AreCheckedAs text setup fs ys → AreCheckedAs text setup (es ++ fs) (xs ++ ys) }
    ensures judged { (before text behind : List ℕ) (xs : List CheckedInterchange)
        → map (judged (before ++ (text ++ behind))) (map (moved_answered (length before)) xs)
        ≡ map (moved_judged before behind) (map (judged text) xs) }
{}

/// A theorem, with nothing to run: the faults of a batch's interchanges follow from the numbers of the interchanges before it.
pub fn faults_go_on()
    ensures by_numbers { (setup : SetupValue) (before es : List IndexEntry)
        → faults_from setup before es ≡ faults_with setup (kept_keys setup before) es }
    ensures moved { (setup : SetupValue) (numbers : List (List ℕ)) (by : ℕ) (es : List IndexEntry)
        → faults_with setup numbers (map (moved_entry by) es) ≡ faults_with setup numbers es }
    ensures numbers { (setup : SetupValue) (by : ℕ) (before es : List IndexEntry)
        → kept_keys setup (before ++ map (moved_entry by) es) ≡ kept_keys setup before ++ kept_keys setup es }
    ensures settled { (setup : SetupValue) (es fs : List IndexEntry)
        → with_faults (es ++ fs) (settled_faults setup (es ++ fs))
        ≡ with_faults es (settled_faults setup es) ++ with_faults fs (faults_from setup es fs) }
{}

/// A theorem, with nothing to run: acknowledgments don't say where an interchange is.
pub fn acknowledgments_go_on()
    ensures { (setup : SetupValue) (at : List ℕ) (by : ℕ) (done xs : List CheckedInterchange) (files : List SentValues)
        → AreAcknowledgments setup at (done ++ xs) files
        → AreAcknowledgments setup at (done ++ map (moved_answered by) xs) files }
{}
