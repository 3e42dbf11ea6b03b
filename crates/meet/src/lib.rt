// Where a listed glyph map meets a coverage: the covered glyphs that the map has, noted in cells.
#![tactic(auto)]

ghost use Rattle.std.specs.Prelude.{◌+◌, ◌*◌, ◌/◌, ◌<◌};
ghost use Rattle.meaning.specs.Words.{words};
ghost use Rattle.meaning.specs.Parts.{coverage};
ghost use Rattle.meaning.specs.Maps.{map_entries};
ghost use Rattle.meaning.specs.Words.{find};
ghost use Rattle.cell_maps.specs.Cells.{folded};
ghost use Rattle.range_meets.specs.Met.{Met, Meets};
ghost use Rattle.range_meets.specs.Walks.{MeetsList, MeetsEntries};

use cell_maps::Map;
use coverage_index::index_of;
use fold::entry;
use meet_ranges::meet_ranges;
use wire::word_inside;

// A coverage with more than this many glyphs, or ranges, for each entry of the map is asked for the entries; a shorter one is walked.
// A question reads a word for each halving, and a walk reads each glyph or range: timed side by side, a question took as long as walking four ranges or eight glyphs.
const LONG: usize = 8;

// The `n` listed glyphs from `at` on that the map has, noted from `to` on; how many. Each is noted, and the place moves on if the map has it, so that no branch waits for the answer.
pub fn meet_list(src: &[u8], at: usize, n: usize, m: Map, t: &mut [u32], to: usize) -> usize
    requires { MeetsList src.now at n m t.old to }
    ensures { Met (folded t.old m) (words src.now at n) t.old to t.new result }
{
    let mut k = 0;
    for i in 0..n {
        let glyph = word_inside(src, at + 2 * i);
        let e = entry(t, m, glyph);
        t[to + k] = (i * 65536 + e % 65536) as u32;
        if e / 65536 == glyph {
            k += 1;
        }
    }
    k
}

// The glyphs of the map that the coverage at `at` has, noted from `to` on; how many. The coverage is asked for one entry after the other.
fn meet_entries(src: &[u8], at: usize, glyphs: &[u8], t: &mut [u32], to: usize) -> usize
    requires { MeetsEntries src.now at glyphs.now t.old to }
    ensures { Met (find (map_entries glyphs.now)) (coverage src.now at) t.old to t.new result }
{
    let mut k = 0;
    for e in 0..glyphs.len() / 4 {
        if let Some(i) = index_of(src, at, word_inside(glyphs, 4 * e)) {
            t[to + k] = (i * 65536 + word_inside(glyphs, 4 * e + 2)) as u32;
            k += 1;
        }
    }
    k
}

// The retained glyphs of the coverage at `at`, in order, noted in the cells from `to` on, each as its coverage index times 65,536, plus its new number; how many. `m` holds the glyph map.
pub fn meet(src: &[u8], at: usize, glyphs: &[u8], m: Map, t: &mut [u32], to: usize) -> usize
    requires { Meets src.now at glyphs.now m t.old to }
    ensures { Met (find (map_entries glyphs.now)) (coverage src.now at) t.old to t.new result }
{
    let n = word_inside(src, at + 2);
    if glyphs.len() / 4 < n / LONG {
        return meet_entries(src, at, glyphs, t, to);
    }
    if word_inside(src, at) == 1 {
        return meet_list(src, at + 4, n, m, t, to);
    }
    meet_ranges(src, at + 4, n, glyphs, t, to)
}
