ghost use Rattle.std.specs.Prelude.{◌≡◌, ◌+◌, ◌++◌, ℕ, List, IfOk, OnOk, length, map};
ghost use Rattle.std.specs.List.{All};
ghost use Rattle.night_definition.specs.Interchanges.{text_of};
ghost use Rattle.gather_files.specs.Apart.{text_of_files};
ghost use Rattle.day_files.specs.Lines.{line_of, lines_of};
ghost use Rattle.day_files.specs.Members.{IsGatheredMember, input_of, part_of};

use crate::lines::append_member;
use crate::member::{Member, part_of};
use hub_kinds::NoMemory;
use std::alloc::Global;

/// The files of a day that go in, one after another.
#[derive(Debug, Drop)]
pub struct Joined {
    /// The night's input.
    pub input: Vec<u8>,
    /// A line for each file of the day, in their order.
    pub lines: Vec<u8>,
}

fn add(alloc: Global, joined: &mut Joined, number: u64, member: &Member) -> Result<(), NoMemory>
    ensures input { OnOk result (joined.new.input.items ≡ joined.old.input.items ++ part_of member.now) }
    ensures lines { OnOk result (joined.new.lines.items
        ≡ joined.old.lines.items ++ line_of number member.now (length joined.old.input.items)) }
{
    let before = joined.input.len() as u64;
    append_member(alloc, &mut joined.lines, number, member, before)?;
    joined.input.extend_from_slice(part_of(member))?;
    Ok(())
}

/// Joins the files of a day that go in, in their order. The only error is out of memory.
pub fn join(alloc: Global, members: &[Member]) -> Result<Joined, NoMemory>
    ensures input { IfOk result (λ joined. joined.input.items ≡ input_of members.now) }
    ensures lines { IfOk result (λ joined. joined.lines.items ≡ lines_of 1 0 members.now) }
    ensures alone { IfOk result (λ joined. All IsGatheredMember members.now
        → text_of joined.input.items ≡ text_of_files (map part_of members.now)) }
{
    let mut joined = Joined {
        input: Vec::new(alloc),
        lines: Vec::new(alloc),
    };
    for i in 0..members.len() {
        add(alloc, &mut joined, i as u64 + 1, &members[i])?;
    }
    Ok(joined)
}
