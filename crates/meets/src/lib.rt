// Whether a glyph map in either form meets a coverage, and a bound for how often.
#![tactic(auto)]

ghost use Rattle.std.specs.Prelude.{◌≡◌, true, ◌+◌, ◌<◌};
ghost use Rattle.meaning.specs.Words.{triples, find, is_some};
ghost use Rattle.meaning.specs.Maps.{glyph_entries};
ghost use Rattle.meaning.specs.Parts.{range_glyphs, coverage, coverage_sound};
ghost use Rattle.meaning.specs.Cut.{unless_empty, new_coverage};
ghost use Rattle.glyph_runs.specs.Runs.{GlyphMap};
ghost use Rattle.listed_meets.specs.Answered.{answered};
ghost use Rattle.noted_runs.specs.Walks.{SeeksRanges};
ghost use Rattle.meets.specs.Either.{Most, SeeksGlyphs};

use cell_maps::Map;
use glyph_runs::{count_runs, reach, run_at};
use listed_meets::meets_list;
use wire::word_inside;

// A bound for how many glyphs `meet` notes, found in a few steps: the entries of a listed map, and the covered glyphs for a map of runs.
pub fn most(src: &[u8], at: usize, glyphs: &[u8], form: usize) -> usize
    requires { (coverage_sound src.now at ≡ true) × GlyphMap form glyphs.now }
    ensures { Most form glyphs.now src.now at result }
{
    if form == 6 {
        return coverage_glyphs::count(src, at);
    }
    glyphs.len() / 4
}

// Whether the map has a glyph of the `n` ranges from `at` on. The first range in which a run of the map has a glyph settles it.
fn meets_ranges(src: &[u8], at: usize, n: usize, glyphs: &[u8], form: usize) -> bool
    requires { SeeksRanges src.now at n form glyphs.now }
    ensures { result ≡ answered (find (glyph_entries form glyphs.now)) (range_glyphs (triples src.now at n)) }
{
    let mut e = 0;
    for i in 0..n {
        let first = word_inside(src, at + 6 * i);
        let last = word_inside(src, at + 6 * i + 2);
        e = reach(glyphs, form, e, first);
        if count_runs(glyphs, form) <= e {
            return false;
        }
        if run_at(glyphs, form, e).old <= last {
            return true;
        }
    }
    false
}

// Whether a glyph of the coverage at `at` is retained. `m` holds the glyph map.
pub fn meets(src: &[u8], at: usize, glyphs: &[u8], form: usize, m: Map, t: &[u32]) -> bool
    requires { SeeksGlyphs form src.now at glyphs.now m t.now }
    ensures { result ≡ is_some (unless_empty (new_coverage (glyph_entries form glyphs.now) (coverage src.now at))) }
{
    let n = word_inside(src, at + 2);
    if word_inside(src, at) == 1 {
        return meets_list(src, at + 4, n, m, t);
    }
    meets_ranges(src, at + 4, n, glyphs, form)
}
