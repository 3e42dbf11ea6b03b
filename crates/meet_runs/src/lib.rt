// Where a glyph map in either form meets a coverage: the covered glyphs that the map has, noted in cells.
// Runs meet ranges stretch by stretch: a range costs the glyphs of it that the map has, a step for each run that has some, and a few to find the first.
#![tactic(auto)]

ghost use Rattle.std.specs.Prelude.{◌+◌, ◌<◌};
ghost use Rattle.meaning.specs.Words.{triples, find};
ghost use Rattle.meaning.specs.Maps.{glyph_entries};
ghost use Rattle.meaning.specs.Parts.{range_glyphs, coverage};
ghost use Rattle.range_meets.specs.Met.{Met};
ghost use Rattle.noted_runs.specs.Walks.{MeetsSpan, InSpan, MeetsRanges};
ghost use Rattle.meets.specs.Either.{MeetsGlyphs};

use cell_maps::Map;
use glyph_runs::reach;
use meet::meet_list;
use noted_runs::meet_run;
use wire::word_inside;

// The glyphs from `first` to `last` that the runs from `from` on have, noted from `to` on, where the glyph `first` has the coverage index `index`; how many. The runs before `from` end before `first`, and that run does not.
fn meet_span(
    glyphs: &[u8],
    from: usize,
    first: usize,
    last: usize,
    index: usize,
    t: &mut [u32],
    to: usize,
) -> usize
    requires { MeetsSpan glyphs.now from first last index t.old to }
    ensures { InSpan glyphs.now first last index t.old to t.new result }
{
    let mut x = first;
    let mut k = 0;
    for e in from..glyphs.len() / 6 {
        if last < word_inside(glyphs, 6 * e) {
            return k;
        }
        let met = meet_run(glyphs, e, x, last, index + (x - first), t, to + k);
        x = met.next;
        k += met.count;
    }
    k
}

// The glyphs of the `n` ranges from `at` on that the map of runs has, noted from `to` on; how many.
fn meet_ranges(src: &[u8], at: usize, n: usize, glyphs: &[u8], t: &mut [u32], to: usize) -> usize
    requires { MeetsRanges src.now at n glyphs.now t.old to }
    ensures { Met (find (glyph_entries 6 glyphs.now)) (range_glyphs (triples src.now at n)) t.old to t.new result }
{
    let mut e = 0;
    let mut k = 0;
    for i in 0..n {
        let first = word_inside(src, at + 6 * i);
        let last = word_inside(src, at + 6 * i + 2);
        let index = word_inside(src, at + 6 * i + 4);
        e = reach(glyphs, 6, e, first);
        k += meet_span(glyphs, e, first, last, index, t, to + k);
    }
    k
}

// The retained glyphs of the coverage at `at`, in order, noted in the cells from `to` on, each as its coverage index times 65,536, plus its new number; how many. `m` holds the glyph map.
pub fn meet(
    src: &[u8],
    at: usize,
    glyphs: &[u8],
    form: usize,
    m: Map,
    t: &mut [u32],
    to: usize,
) -> usize
    requires { MeetsGlyphs form src.now at glyphs.now m t.old to }
    ensures { Met (find (glyph_entries form glyphs.now)) (coverage src.now at) t.old to t.new result }
{
    if form == 4 {
        return meet::meet(src, at, glyphs, m, t, to);
    }
    let n = word_inside(src, at + 2);
    if word_inside(src, at) == 1 {
        return meet_list(src, at + 4, n, m, t, to);
    }
    meet_ranges(src, at + 4, n, glyphs, t, to)
}
