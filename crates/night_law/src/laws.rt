ghost use Rattle.std.specs.Prelude.{◌≡◌, ℕ, List};
ghost use Rattle.std.specs.List.{All};
ghost use Rattle.moment.specs.Moment.{IsMoment};
ghost use Rattle.env_index.specs.Words.{IndexEntry, IndexValue, IsIndex};
ghost use Rattle.partner_setup.specs.Setup.{SetupValue};
ghost use Rattle.partner_setup.specs.Sound.{IsSoundSetup};
ghost use Rattle.set_answers.specs.Answers.{IsSetAnswer, SentValue};
ghost use Rattle.set_answers.specs.Asked.{AreAskedByFirstUse};
ghost use Rattle.set_answers.specs.CheckedText.{CheckedInterchange, AreCheckedAs};
ghost use Rattle.set_answers.specs.FirstUse.{AreToldByFirstUse};
ghost use Rattle.night_batches.specs.declared.night.Night.{Night};
ghost use Rattle.night_batches.specs.Night.{IsNight};
ghost use Rattle.night_law.specs.Meets.{IsAcceptedAsItMeets};
ghost use Rattle.night_law.specs.Quotable.{AreAllQuotable, IsGuidePlain};
ghost use Rattle.night_law.specs.ReadBack.{AreReadBack};
ghost use Rattle.night_law.specs.SetsRead.{AreBoxesRead};
ghost use Rattle.night_law.specs.Ta1sRead.{AreTa1sReadBack};
ghost use Rattle.night_law.specs.Tallied.{AreCountersTallied, AreNumbersTallied};
ghost use Rattle.night_law.specs.Told.{AreSetsTold};

/// The interchanges of a text are answered in one way. It does nothing: its contract is the theorem.
pub fn answers_are_one()
    ensures { (text : List ℕ) (setup : SetupValue) (entries : List IndexEntry) (a b : List CheckedInterchange)
        → AreCheckedAs text setup entries a → AreCheckedAs text setup entries b → a ≡ b }
{}

/// The answer to a set says that it is accepted (999 guide, IK501 is A) exactly where the set meets its guide and no earlier set
/// of its group has its ST02. It does nothing: its contract is the theorem.
pub fn accepted_as_it_meets()
    ensures { IsAcceptedAsItMeets }
{}

/// What is reported of earlier numbers (an interchange is a duplicate; AK905 19; IK502 23) is reported exactly where the first use of the
/// number, by the order of places in the text, is an earlier place. It does nothing: its contract is the theorem.
pub fn numbers_told_by_first_use()
    ensures { (text : List ℕ) (setup : SetupValue) (index : IndexValue) → IsIndex text index → AreToldByFirstUse setup index.entries }
{}

/// What is asked of the places of an index before a text is answered is one question at each of its places, in their order, and that an
/// earlier place has a number is asked exactly where the number's first use is an earlier place. It does nothing: its contract is the
/// theorem.
pub fn asked_by_first_use()
    ensures { (text : List ℕ) (setup : SetupValue) (index : IndexValue) → IsIndex text index → AreAskedByFirstUse text setup index.entries }
{}

/// A text has one night by a setup and at a moment. It does nothing: its contract is the theorem.
pub fn night_is_one()
    ensures { (text : List ℕ) (setup : SetupValue) (at : List ℕ) (a b : Night) → IsNight text setup at a → IsNight text setup at b → a ≡ b }
{}

/// The bytes of a night's acknowledgments report each set that a partner sent: its AK2 loop ends with an IK5 whose code is A
/// exactly where the set meets its guide, and the AK9 of its group has the verdict, the counts and the codes of the group's answer (999
/// guide, 005010X231). It does nothing: its contract is the theorem.
pub fn sets_are_told_as_they_meet()
    ensures { (text : List ℕ) (setup : SetupValue) (at : List ℕ) (night : Night) → IsNight text setup at night
        → AreSetsTold text setup at night.acks }
{}

/// A partner that reads a night's acknowledgments, by its delimiters, finds a response to each of its sets that is reported to it, in
/// their order, and no other: ST01, ST02, and A as IK501 exactly where the set meets its guide (X12.6, segment; 999 guide, 005010X231).
/// That is so where its element separator and its terminator are in no reference number of its guides; in the ids of their loops and
/// in the elements that are repeated of an interchange without fault (GS01, GS06, GS08, ST01, ST02) they never do. It does nothing: its
/// contract is the theorem.
pub fn acknowledgments_are_read_as_sets_meet()
    ensures { (text : List ℕ) (setup : SetupValue) (at : List ℕ) (night : Night) → IsSoundSetup setup → IsMoment at
        → IsNight text setup at night → AreReadBack text setup night.acks }
{}

/// A partner that reads a night's acknowledgments, by its delimiters, finds in them exactly one TA1 for each of its interchanges that is
/// answered, in their order, and no other: ISA13, ISA09 and ISA10 of the interchange, A or R, and the note (X12.5, interchange
/// acknowledgment). That is so where its responses can be read. It does nothing: its contract is the theorem.
pub fn ta1s_are_read_as_interchanges_are_answered()
    ensures { (text : List ℕ) (setup : SetupValue) (at : List ℕ) (night : Night) → IsSoundSetup setup → IsMoment at
        → IsNight text setup at night → AreTa1sReadBack text setup night.acks }
{}

/// Where each guide of a sound setup has letters and digits alone as reference numbers, no partner's element separator or terminator is
/// in one, so each can read its acknowledgments (X12.6, data element reference number). It does nothing: its contract is the theorem.
pub fn plain_references_are_quoted()
    ensures { (text : List ℕ) (setup : SetupValue) → IsSoundSetup setup → All IsGuidePlain setup.guides → AreAllQuotable text setup }
{}

/// The next counters of a night are, partner by partner, those of the tally of its acknowledgments, with a group or without, and its
/// delivered sets, where there are fewer than 2^64 of them and an interchange holds some; and in whatever order these
/// are counted of all partners, a partner's tally among those of all gives its first numbers and its next counters (own). It does nothing:
/// its contract is the theorem.
pub fn counters_are_tallied()
    ensures counters { AreCountersTallied }
    ensures numbers { AreNumbersTallied }
{}

/// A partner that reads its mailbox, by its delimiters, finds in it just the sets that are delivered to it, in their order, from ST to
/// SE: each with the components of the occurrences of the elements that its sender wrote, read by the sender's delimiters, but for
/// ST02 and SE, which are written anew (X12.6, transaction set and segment). It does nothing: its contract is the theorem.
pub fn mailboxes_are_read_as_sets()
    ensures { (text : List ℕ) (setup : SetupValue) (at : List ℕ) (night : Night) → IsSoundSetup setup → IsMoment at
        → IsNight text setup at night → AreBoxesRead text setup night.boxes }
{}
