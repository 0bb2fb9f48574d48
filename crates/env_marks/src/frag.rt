ghost use Rattle.std.specs.Prelude.{◌≡◌, ◌++◌, IfOk, OnOk};
ghost use Rattle.env_marks.specs.Frags.{both_frags, marks_in, id_end_of_both};

use hub_kinds::NoMemory;

/// A stretch of a text without a terminator, by offsets: its ends, its first byte other than CR and LF, its first element
/// separator, and the first one after that byte (X12.6, segment).
#[derive(Clone, Copy, Debug, PartialEq, Eq)]
pub struct Frag {
    pub from: usize,
    pub to: usize,
    pub body: Option<usize>,
    pub separator: Option<usize>,
    pub id_end: Option<usize>,
}

/// A segment by offsets: where it starts, where its terminator is, and where its id ends (X12.6, segment).
#[derive(Clone, Copy, Debug, PartialEq, Eq)]
pub struct Mark {
    pub start: usize,
    pub end: usize,
    pub id_end: usize,
}

/// Two stretches, one after the other.
pub(crate) fn both_frags(front: Frag, behind: Frag) -> Frag
    ensures { result ≡ both_frags front behind }
{
    Frag {
        from: front.from,
        to: behind.to,
        body: front.body.or(behind.body),
        separator: front.separator.or(behind.separator),
        id_end: id_end_of_both(front.body, front.id_end, behind),
    }
}

fn id_end_of_both(body: Option<usize>, id_end: Option<usize>, behind: Frag) -> Option<usize>
    ensures { result ≡ id_end_of_both body id_end behind }
{
    match body {
        None => behind.id_end,
        Some(_) => id_end.or(behind.separator),
    }
}

/// Adds the segment that a stretch between terminators is.
pub(crate) fn push_marks(marks: &mut Vec<Mark>, frag: Frag) -> Result<(), NoMemory>
    ensures { OnOk result (marks.new.items ≡ marks.old.items ++ marks_in frag) }
{
    if let Some(start) = frag.body {
        marks.push(Mark {
            start,
            end: frag.to,
            id_end: frag.id_end.unwrap_or(frag.to),
        })?;
    }
    Ok(())
}
