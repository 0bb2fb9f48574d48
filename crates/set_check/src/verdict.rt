//! The verdict on a checked set (999 guide, IK501), and what is answered to it.
ghost use Rattle.std.specs.Prelude.{◌≡◌, [], if◌then◌else◌, IfOk};
ghost use Rattle.std.specs.List.{list_all};
ghost use Rattle.std.specs.Option.{option_copied};
ghost use Rattle.hub_kinds.specs.declared.set_codes.Verdict.TheVariants.{Rejected};
ghost use Rattle.set_check.specs.Checked.{guide_tree_of};
ghost use Rattle.set_check.specs.Codes.{control_of, earlier_set_codes};
ghost use Rattle.set_check.specs.Envelope.{codes_found};
ghost use Rattle.set_check.specs.Verdict.{tells_of_faults, tolerates, verdict_on};
ghost use Rattle.x12_segs.specs.Words.{element_of};

use crate::checked::{CheckedSet, Found, found_codes, is_without_fault};
use crate::codes::set_codes;
use crate::envelope::header_of;
use crate::tolerance::tolerates;
use guide_tree::Guide;
use hub_kinds::{Faults, Items, Lent, NoMemory, SetAnswer, SetCode, Verdict};
use std::alloc::Global;
use std::boxed::Box;
use x12_segs::SegView;

impl<'a> CheckedSet<'a> {
    ghost use Rattle.std.specs.Prelude.{◌≡◌, ◌↔◌, false, IfOk};
    ghost use Rattle.hub_kinds.specs.declared.set_codes.Verdict.TheVariants.{Accepted};
    ghost use Rattle.set_check.specs.Answer.{answer_to};
    ghost use Rattle.set_check.specs.Checked.{guide_in, parts_in};
    ghost use Rattle.set_check.specs.Meets.{MeetsAlone};
    ghost use Rattle.set_check.specs.Verdict.{verdict_with};

    /// The verdict on it (999 guide, IK501), by whether an earlier set of its group has its ST02: accepted exactly where none has
    /// and it meets its guide.
    pub fn verdict(&self, earlier: bool) -> Verdict
        ensures value { result ≡ verdict_with (guide_in self.now) (parts_in self.now) self.now.faults earlier }
        ensures meets { result ≡ Accepted ↔ ((earlier ≡ false) × MeetsAlone (guide_in self.now) (parts_in self.now)) }
    {
        verdict_by(self.guide, &self.faults, found_codes(&self.found), earlier)
    }

    /// What an acknowledgment reads of it (999 guide, AK2 to IK5), by whether an earlier set of its group has its ST02. The only
    /// error is out of memory.
    pub fn into_answer(self, alloc: Global, earlier: bool) -> Result<SetAnswer<'a>, NoMemory>
        ensures { IfOk result (λ answer. answer ≡ answer_to self.entry earlier) }
    {
        let verdict = self.verdict(earlier);
        let CheckedSet {
            text,
            span,
            guide,
            faults,
            found,
        } = self;
        match found {
            None => clean_answer(alloc, &header_of(text, &span), earlier, verdict),
            Some(found) => {
                let found = Box::into_inner(found);
                found_answer(alloc, guide, faults, found, earlier, verdict)
            }
        }
    }
}

/// What is answered to a set in which nothing was found, by its ST.
fn clean_answer<'a>(
    alloc: Global,
    header: &SegView<'a>,
    earlier: bool,
    verdict: Verdict,
) -> Result<SetAnswer<'a>, NoMemory>
    ensures { IfOk result (λ answer. answer ≡ record {
      identifier = element_of header.entry.now 1;
      control = control_of header.entry.now;
      convention = element_of header.entry.now 3;
      faults = [];
      codes = earlier_set_codes earlier;
      verdict = verdict;
    }) }
{
    let mut codes = Vec::new(alloc);
    if earlier {
        codes.push(SetCode::ControlNumberNotUnique)?;
    }
    let (identifier, control, convention) = header.first_elements();
    Ok(SetAnswer {
        identifier: Lent::new(identifier),
        control: Lent::new(control),
        convention: Lent::new(convention),
        faults: Faults::new(alloc),
        codes: Items::from_vec(codes),
        verdict,
    })
}

/// What is answered to a set with these faults in which this was found, by its guide if it has one.
fn found_answer<'a>(
    alloc: Global,
    guide: Option<&Guide>,
    faults: Faults<'a>,
    found: Found<'a>,
    earlier: bool,
    verdict: Verdict,
) -> Result<SetAnswer<'a>, NoMemory>
    ensures { IfOk result (λ answer. answer ≡ record {
      identifier = element_of found.entry.envelope.header 1;
      control = control_of found.entry.envelope.header;
      convention = element_of found.entry.envelope.header 3;
      faults = faults.entry;
      codes =
          codes_found (guide_tree_of (option_copied guide.entry)) found.entry.envelope faults.entry
          found.entry.codes.items earlier;
      verdict = verdict;
    }) }
{
    let Found { codes, envelope } = found;
    let codes = if earlier {
        set_codes(
            alloc,
            &faults,
            guide,
            &envelope.header,
            envelope.segments,
            envelope.trailer.as_ref(),
            earlier,
        )?
    } else {
        codes
    };
    let (identifier, control, convention) = envelope.header.first_elements();
    Ok(SetAnswer {
        identifier: Lent::new(identifier),
        control: Lent::new(control),
        convention: Lent::new(convention),
        faults,
        codes: Items::from_vec(codes),
        verdict,
    })
}

/// The verdict by the faults, the codes where no earlier set is asked for, and whether there is one: it rejects the set.
fn verdict_by(guide: Option<&Guide>, faults: &Faults, codes: &[SetCode], earlier: bool) -> Verdict
    ensures { result ≡ if earlier then Rejected else verdict_on (guide_tree_of (option_copied guide.entry)) faults.now codes.now }
{
    if earlier {
        Verdict::Rejected
    } else if is_without_fault(faults, codes) {
        Verdict::Accepted
    } else if tell_of_faults(codes) && are_tolerated(guide, faults) {
        Verdict::AcceptedWithErrors
    } else {
        Verdict::Rejected
    }
}

fn tell_of_faults(codes: &[SetCode]) -> bool
    ensures { result ≡ list_all tells_of_faults codes.now }
{
    codes.iter().all(|code| tells_of_faults(*code))
}

fn tells_of_faults(code: SetCode) -> bool
    ensures { result ≡ tells_of_faults code }
{
    matches!(
        code,
        SetCode::SegmentsInError | SetCode::ImplementationSegmentsInError
    )
}

fn are_tolerated(guide: Option<&Guide>, faults: &Faults) -> bool
    ensures { result ≡ list_all (tolerates (guide_tree_of (option_copied guide.entry))) faults.now }
{
    for i in 0..faults.len() {
        if !tolerates(guide, &faults.at(i)) {
            return false;
        }
    }
    true
}
