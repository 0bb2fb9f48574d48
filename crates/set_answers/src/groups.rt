ghost use Rattle.std.specs.Prelude.{◌≡◌, List, false, IfOk};
ghost use Rattle.env_index.specs.Words.{GroupEntry};
ghost use Rattle.answered_sets.specs.Judged.{is_fa};
ghost use Rattle.set_answers.specs.Answers.{AreSetAnswers, IsGroupAnswer, answer_by, codes_where, has_number_among};
ghost use Rattle.set_answers.specs.Ends.{ends_of};

use crate::answered::AnsweredGroup;
use crate::ends::{GroupEnds, ends_of, listed};
use crate::sent::Sent;
use crate::support::support_of;
use ack_999::{group_codes, group_verdict, totals_of};
use env_index::{GroupElements, GroupEnvelope};
use hub_kinds::{GroupAnswer, GroupCode, Items, NoMemory, SetAnswer};
use std::alloc::Global;

/// The answer to a group that acknowledges nothing itself, with these answers to its sets.
pub(crate) fn answer_with<'a>(
    alloc: Global,
    sent: &Sent<'a>,
    group: &GroupEnvelope<'_, 'a>,
    earlier: bool,
    sets: Vec<SetAnswer<'a>>,
) -> Result<AnsweredGroup<'a>, NoMemory>
    requires other { is_fa group.now ≡ false }
    requires sets { AreSetAnswers sent.now group.now.header group.now.sets sets.items }
    ensures { IfOk result (λ answer. (before : List GroupEntry) → earlier ≡ has_number_among before group.now
        → IsGroupAnswer sent.now before group.now answer) }
{
    let ends = ends_of(group);
    let codes = codes_where(alloc, sent, group, &ends, earlier)?;
    let answer = answer_by(codes, ends, sets.as_slice());
    Ok(AnsweredGroup {
        answer,
        sets: Items::from_vec(sets),
    })
}

/// The codes of a group with these ends.
fn codes_where(
    alloc: Global,
    sent: &Sent<'_>,
    group: &GroupEnvelope<'_, '_>,
    ends: &GroupEnds<'_>,
    earlier: bool,
) -> Result<Items<GroupCode>, NoMemory>
    requires { ends.now ≡ ends_of group.now }
    ensures { IfOk result (λ codes. codes ≡ codes_where sent.now earlier group.now) }
{
    group_codes(
        alloc,
        support_of(sent, &ends.header),
        ends.header.control.bytes(),
        ends.trailer.as_ref(),
        group.set_count() as u64,
        earlier,
    )
}

/// The answer to a group with these ends, these codes and these answers to its sets.
fn answer_by<'a>(
    codes: Items<GroupCode>,
    ends: GroupEnds<'a>,
    sets: &[SetAnswer<'_>],
) -> GroupAnswer<'a>
    ensures { (group : GroupEntry) → ends.entry ≡ ends_of group → result ≡ answer_by codes group sets.now }
{
    let verdict = group_verdict(codes.as_slice(), &totals_of(sets));
    let GroupEnds { header, trailer } = ends;
    let GroupElements {
        functional_id,
        control,
        version,
    } = header;
    GroupAnswer {
        functional_id,
        control,
        version,
        listed: listed(trailer),
        codes,
        verdict,
    }
}
