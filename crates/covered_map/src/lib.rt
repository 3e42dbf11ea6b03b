// The glyph map of a coverage's retained glyphs, laid as entries from the front of the area on: what goes by a glyph map can so go by these glyphs alone.
#![tactic(auto)]

ghost use Rattle.meaning.specs.Words.{twos};
ghost use Rattle.meaning.specs.Parts.{coverage};
ghost use Rattle.laws.specs.Written.{Wrote};
ghost use Rattle.area.specs.Part.{notes};
ghost use Rattle.covered_map.specs.Named.{named, Names};

use area::put_two;
use coverage_glyphs::glyph_at;

// An entry for each of the `n` notes from `at` on, of glyphs of the coverage at `cover`: the glyph that has the note's coverage index, and the note's new number; the place after them.
pub fn put_covered(
    src: &[u8],
    cover: usize,
    t: &[u32],
    at: usize,
    n: usize,
    area: &mut [u8],
) -> usize
    requires { Names src.now cover t.now at n area.old }
    ensures { Wrote area.old 0 (twos (named (coverage src.now cover) (notes t.now at n))) area.new result }
{
    let mut p = 0;
    for i in 0..n {
        let note = t[at + i] as usize;
        let old = glyph_at(src, cover, note / 65536);
        p = put_two(area, p, old, note % 65536);
    }
    p
}
