// A glyph map as runs, in either form: six bytes a run, or four bytes a pair, which is a run of one.
#![tactic(auto)]

ghost use Rattle.std.specs.Prelude.{◌≡◌, ◌/◌, ◌≤◌, ◌<◌, length};
ghost use Rattle.glyph_runs.specs.Runs.{GlyphMap, run_count, IsRun, Past, Reached};

use wire::word_inside;

// A run: the first old id, the first new id, and how many pairs in step there are.
#[derive(Clone, Copy)]
pub struct Run {
    pub old: usize,
    pub new: usize,
    pub count: usize,
}

// How many runs a glyph map has.
pub fn count_runs(glyphs: &[u8], form: usize) -> usize
    requires { GlyphMap form glyphs.now }
    ensures { result ≡ length glyphs.now / form }
{
    if form == 6 {
        return glyphs.len() / 6;
    }
    glyphs.len() / 4
}

// The i-th run of a glyph map.
pub fn run_at(glyphs: &[u8], form: usize, i: usize) -> Run
    requires { GlyphMap form glyphs.now × (i < run_count form glyphs.now) }
    ensures { IsRun form glyphs.now i result }
{
    let at = form * i;
    let old = word_inside(glyphs, at);
    let new = word_inside(glyphs, at + 2);
    if form == 6 {
        return Run {
            old,
            new,
            count: word_inside(glyphs, at + 4),
        };
    }
    Run { old, new, count: 1 }
}

// The first run that ends at the glyph or later; the number of runs if none does. Those before `from` end before it.
// It is mostly close: the search looks at four runs one by one, then it halves.
pub fn reach(glyphs: &[u8], form: usize, from: usize, glyph: usize) -> usize
    requires { GlyphMap form glyphs.now × (from ≤ run_count form glyphs.now) × Past form glyphs.now glyph from × (glyph ≤ 65536) }
    ensures { Reached form glyphs.now glyph result }
{
    let n = count_runs(glyphs, form);
    let after = halving::reach(glyphs, 0, form, n, from, from + 4, glyph + 1);
    if after == from {
        return after;
    }
    let last = run_at(glyphs, form, after - 1);
    if glyph < last.old + last.count {
        return after - 1;
    }
    after
}
