// Whether a glyph map has one of the listed glyphs of a coverage.
#![tactic(auto)]

ghost use Rattle.std.specs.Prelude.{◌≡◌, true, ◌+◌, ◌*◌, ◌/◌, ◌≤◌, ◌<◌, length};
ghost use Rattle.meaning.specs.Words.{words};
ghost use Rattle.listed_meets.specs.Answered.{answered};
ghost use Rattle.cell_maps.specs.Cells.{folded, Inside};

use cell_maps::Map;
use fold::entry;
use wire::word_inside;

// Whether the map has one of the `n` listed glyphs from `at` on. The first that it has settles it.
pub fn meets_list(src: &[u8], at: usize, n: usize, m: Map, t: &[u32]) -> bool
    requires { (at + 2 * n ≤ length src.now) × Inside t.now m }
    ensures { result ≡ answered (folded t.now m) (words src.now at n) }
{
    for i in 0..n {
        let glyph = word_inside(src, at + 2 * i);
        if entry(t, m, glyph) / 65536 == glyph {
            return true;
        }
    }
    false
}
