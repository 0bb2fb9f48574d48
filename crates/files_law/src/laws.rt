ghost use Rattle.std.specs.Prelude.{ℕ, List};
ghost use Rattle.moment.specs.Moment.{IsMoment};
ghost use Rattle.partner_setup.specs.Setup.{SetupValue};
ghost use Rattle.partner_setup.specs.Sound.{IsSoundSetup};
ghost use Rattle.night_batches.specs.declared.night.Night.{Night};
ghost use Rattle.night_batches.specs.Night.{IsNight};
ghost use Rattle.files_law.specs.Acknowledgments.{AreAcknowledgmentsRead};
ghost use Rattle.files_law.specs.Mailboxes.{AreMailboxesRead};

/// A partner that reads its acknowledgments of a night by the definition of the index finds in them just the interchanges that are
/// written to it, one after another: no byte is outside of them, and none has a fault 1 to 7 (X12.5, interchange). That is so where
/// its element separator and its terminator are in no reference number of its guides. It does nothing: its contract is the theorem.
pub fn acknowledgments_are_read_as_interchanges()
    ensures { (text : List ℕ) (setup : SetupValue) (at : List ℕ) (night : Night) → IsSoundSetup setup → IsMoment at
        → IsNight text setup at night → AreAcknowledgmentsRead text setup at night.acks }
{}

/// A partner that reads its mailbox of a night by the definition of the index finds in it just the interchanges that are written to it,
/// one after another: no byte is outside of them, and none has a fault 1 to 7 (X12.5, interchange). That is so where no segment
/// between ST and SE begins at a header where it is in the mailbox. It does nothing: its contract is the theorem.
pub fn mailboxes_are_read_as_interchanges()
    ensures { (text : List ℕ) (setup : SetupValue) (at : List ℕ) (night : Night) → IsSoundSetup setup → IsMoment at
        → IsNight text setup at night → AreMailboxesRead text setup at night.boxes }
{}
