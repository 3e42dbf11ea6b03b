// Numbers of the source, renumbered straight into the area: sequences of glyphs or of classes.
// A writer answers the place after what it wrote, which is 0 where nothing is left, and more than the area's length where there is no room.
#![tactic(auto)]

ghost use Rattle.std.specs.Prelude.{◌≡◌, ◌||◌, [], ◌∷◌, ◌+◌, ◌-◌, ◌*◌, ◌<◌, ◌≤◌, length, eqb, ltb, Some};
ghost use Rattle.meaning.specs.Words.{words, find, map_all};
ghost use Rattle.cell_maps.specs.Cells.{Inside};
ghost use Rattle.numbers.specs.Entries.{entries_in};
ghost use Rattle.numbers.specs.Leaves.{Leaves, joined};

use area::{over, put};
use cell_maps::Map;
use fold::find;
use wire::word_inside;

// Whether a writer that answered `p` came to an end: nothing is left, or there is no room.
pub fn ended(area: &[u8], p: usize) -> bool
    ensures { result ≡ eqb p 0 || ltb (length area.now) p }
{
    if p == 0 {
        return true;
    }
    area.len() < p
}

// The new numbers of the `n` numbers from `at` on, from `pos` on; nothing is left if one of them has none.
pub fn renumber(
    src: &[u8],
    at: usize,
    n: usize,
    t: &[u32],
    m: Map,
    area: &mut [u8],
    pos: usize,
) -> usize
    requires { (at + 2 * n ≤ length src.now) × Inside t.now m × (pos ≤ length area.old) }
    ensures { Leaves area.old pos (map_all (find (entries_in t.now m)) (words src.now at n)) (2 * n) area.new result }
{
    if area.len() < pos + 2 * n {
        return over(area);
    }
    for i in 0..n {
        let Some(new) = find(t, m, word_inside(src, at + 2 * i)) else {
            return 0;
        };
        put(area, pos + 2 * i, new);
    }
    pos + 2 * n
}

// A count, and the new numbers of the `n` numbers from `at` on, from `pos` on; nothing is left if one of them has none.
pub fn write_counted(
    count: usize,
    src: &[u8],
    at: usize,
    n: usize,
    t: &[u32],
    m: Map,
    area: &mut [u8],
    pos: usize,
) -> usize
    requires { (at + 2 * n ≤ length src.now) × Inside t.now m × (pos ≤ length area.old) }
    ensures { Leaves area.old pos (joined (Some (count ∷ [])) (map_all (find (entries_in t.now m)) (words src.now at n))) (2 + 2 * n) area.new result }
{
    if area.len() < pos + 2 {
        return over(area);
    }
    let p = put(area, pos, count);
    renumber(src, at, n, t, m, area, p)
}
