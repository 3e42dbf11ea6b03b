// What comes of a cut with lent scratch.
#![tactic(auto)]

ghost use Rattle.std.specs.Prelude.{◌≡◌, length};
ghost use Rattle.tried.specs.Tries.{NoRoom, answered};
ghost use Rattle.tried.specs.declared.NotCut.TheVariants.{Refused};

use room::NotLaid;

// Why a cut with lent scratch laid nothing: the cells were too few, or the area too short, and the buffer is untouched; or the table itself is refused.
#[derive(Clone, Copy, Debug, PartialEq, Eq)]
pub enum NotCut {
    FewCells,
    Short,
    Refused(NotLaid),
}

// A table that is refused is so with any scratch.
impl From<NotLaid> for NotCut {
    ghost from_gives = { λ e r. r ≡ Refused e };

    fn from(e: NotLaid) -> NotCut {
        NotCut::Refused(e)
    }
}

// What became of the table, unless the scratch was too short.
pub fn answered(tried: Result<usize, NotCut>) -> Option<Result<usize, NotLaid>>
    ensures { result ≡ answered tried }
{
    match tried {
        Ok(n) => Some(Ok(n)),
        Err(NotCut::Refused(e)) => Some(Err(e)),
        Err(NotCut::FewCells | NotCut::Short) => None,
    }
}

// Why nothing is laid where the area has no room: it is too short; or it has what is enough for any table that is not too big, and then this one is.
pub fn no_room(area: &[u8], enough: usize) -> NotCut
    ensures { NoRoom enough (length area.now) result }
{
    if area.len() < enough {
        return NotCut::Short;
    }
    NotCut::Refused(NotLaid::TooBig)
}
