// Where a listed glyph map meets the ranges of a coverage: the covered glyphs that the map has, noted in cells.
#![tactic(auto)]

ghost use Rattle.std.specs.Prelude.{◌+◌, ◌*◌, ◌/◌, ◌<◌};
ghost use Rattle.meaning.specs.Words.{triples};
ghost use Rattle.meaning.specs.Parts.{range_glyphs};
ghost use Rattle.meaning.specs.Maps.{map_entries};
ghost use Rattle.meaning.specs.Words.{find};
ghost use Rattle.range_meets.specs.Met.{Met};
ghost use Rattle.range_meets.specs.Walks.{MeetsRanges};

use range_meets::{meet_range, reach};
use wire::word_inside;

// The glyphs of the `n` ranges from `at` on that the map has, noted from `to` on; how many. A range costs the entries that lie in it, and a few steps to find the first.
pub fn meet_ranges(
    src: &[u8],
    at: usize,
    n: usize,
    glyphs: &[u8],
    t: &mut [u32],
    to: usize,
) -> usize
    requires { MeetsRanges src.now at n glyphs.now t.old to }
    ensures { Met (find (map_entries glyphs.now)) (range_glyphs (triples src.now at n)) t.old to t.new result }
{
    let mut e = 0;
    let mut k = 0;
    for i in 0..n {
        if glyphs.len() / 4 <= e {
            return k;
        }
        let first = word_inside(src, at + 6 * i);
        let last = word_inside(src, at + 6 * i + 2);
        let index = word_inside(src, at + 6 * i + 4);
        let from = reach(glyphs, e, first);
        let met = meet_range(glyphs, from, first, last, index, t, to + k);
        e = from + met;
        k += met;
    }
    k
}
