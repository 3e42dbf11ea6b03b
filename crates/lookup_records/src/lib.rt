// Records of lookups, renumbered straight into the area: those whose lookup stays.
#![tactic(auto)]

ghost use Rattle.std.specs.Prelude.{◌∷◌, ◌+◌, ◌-◌, ◌*◌, ◌<◌, ◌≤◌, length, Some};
ghost use Rattle.meaning.specs.Words.{entries, twos, find};
ghost use Rattle.meaning.specs.Cut.{cut_records};
ghost use Rattle.cell_maps.specs.Cells.{Inside};
ghost use Rattle.area.specs.Extends.{Extends};
ghost use Rattle.numbers.specs.Entries.{entries_in};
ghost use Rattle.numbers.specs.Leaves.{Leaves};

use area::{over, put, put_two};
use cell_maps::Map;
use fold::find;
use wire::word_inside;

// Those of the `n` records from `at` on whose lookup stays, with its new number, from `pos` on, where there is room for all `n`; the place after them.
pub fn write_records(
    src: &[u8],
    at: usize,
    n: usize,
    t: &[u32],
    m: Map,
    area: &mut [u8],
    pos: usize,
) -> usize
    requires { (at + 4 * n ≤ length src.now) × Inside t.now m × (pos + 4 * n ≤ length area.old) }
    ensures { Extends area.old pos (twos (cut_records (entries_in t.now m) (entries src.now at n))) area.new result }
{
    let mut p = pos;
    for i in 0..n {
        let old = word_inside(src, at + 4 * i + 2);
        if let Some(new) = find(t, m, old) {
            p = put_two(area, p, word_inside(src, at + 4 * i), new);
        }
    }
    p
}

// How many of the `n` records from `at` on have a lookup that stays, and these records, from `pos` on.
pub fn write_counted_records(
    src: &[u8],
    at: usize,
    n: usize,
    t: &[u32],
    m: Map,
    area: &mut [u8],
    pos: usize,
) -> usize
    requires { (at + 4 * n ≤ length src.now) × Inside t.now m × (pos ≤ length area.old) }
    ensures { Leaves area.old pos (Some (length (cut_records (entries_in t.now m) (entries src.now at n)) ∷ twos (cut_records (entries_in t.now m) (entries src.now at n)))) (2 + 4 * n) area.new result }
{
    if area.len() < pos + 2 + 4 * n {
        return over(area);
    }
    let end = write_records(src, at, n, t, m, area, pos + 2);
    put(area, pos, (end - pos - 2) / 4);
    end
}
