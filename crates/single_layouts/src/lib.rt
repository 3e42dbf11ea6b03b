// Single substitutions: the table of the pairs that stay, in format 1 or 2, written into the area and handed over.
#![tactic(auto)]

ghost use Rattle.std.specs.Prelude.{true, ◌+◌, ◌*◌, ◌<◌, length, ltb};
ghost use Rattle.meaning.specs.Words.{flat};
ghost use Rattle.meaning.specs.Cut.{kept_singles};
ghost use Rattle.meaning.specs.Subset.{limit, written};
ghost use Rattle.room.specs.Laid.{laid_as};
ghost use Rattle.tried.specs.Tries.{Tries};
ghost use Rattle.single_pairs.specs.Pairs.{pairs};
ghost use Rattle.single_tables.specs.Writing.{delta_layout, list_layout, Standing, Writes};

use room::{HIGHEST, NotLaid};
use single_pairs::Pairs;
use single_tables::{hand, write_delta, write_list};
use tried::NotCut;

// Format 1 of the `n` pairs from `at` on, laid into the buffer if there is room.
fn lay_delta(
    t: &[u32],
    at: usize,
    n: usize,
    area: &mut [u8],
    out: &mut [u8],
) -> Result<usize, NotCut>
    requires { Standing t.now at n }
    ensures { Tries (⊥) (length area.old < limit) result out.old out.new (laid_as true out.old (flat (delta_layout t.now at n))) }
{
    if area.len() < 6 {
        return Err(NotCut::Short);
    }
    let end = write_delta(t, at, n, area);
    hand(area, end, out)
}

// Format 2 of these pairs, laid into the buffer if the coverage's offset fits a word and there is room.
fn lay_list(
    t: &[u32],
    at: usize,
    n: usize,
    area: &mut [u8],
    out: &mut [u8],
) -> Result<usize, NotCut>
    requires { Standing t.now at n }
    ensures { Tries (⊥) (length area.old < limit) result out.old out.new (laid_as (ltb (6 + 2 * n) 65536) out.old (flat (list_layout t.now at n))) }
{
    if HIGHEST < 6 + 2 * n {
        return Err(NotCut::Refused(NotLaid::TooBig));
    }
    if area.len() < 6 + 2 * n {
        return Err(NotCut::Short);
    }
    let end = write_list(t, at, n, area);
    hand(area, end, out)
}

// The table of the pairs that stand in the cells from `at` on, laid into the buffer if there is room: format 1 if their differences agree, else format 2.
pub fn lay_pairs(
    t: &[u32],
    at: usize,
    kept: Pairs,
    area: &mut [u8],
    out: &mut [u8],
) -> Result<usize, NotCut>
    requires { Writes t.now at kept.count kept.same }
    ensures { Tries (⊥) (length area.old < limit) result out.old out.new (written out.old (kept_singles (pairs t.now at kept.count))) }
{
    if kept.count == 0 {
        return Err(NotCut::Refused(NotLaid::Nothing));
    }
    if kept.same {
        return lay_delta(t, at, kept.count, area, out);
    }
    lay_list(t, at, kept.count, area, out)
}
