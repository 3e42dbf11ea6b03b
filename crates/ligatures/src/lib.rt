// Sets of ligatures: what is left of them, written into the area in one walk.
#![tactic(auto)]

ghost use Rattle.std.specs.Prelude.{◌≡◌, ◌≤◌, ◌<◌, length, None};
ghost use Rattle.meaning.specs.Tables.{ligature_set};
ghost use Rattle.meaning.specs.Fault.{ligature_fault, set_fault};
ghost use Rattle.meaning.specs.Cut.{cut_ligatures};
ghost use Rattle.meaning.specs.Layout.{block, ligature_words, set_words};
ghost use Rattle.meaning.specs.Subset.{limit};
ghost use Rattle.cell_maps.specs.Cells.{Inside};
ghost use Rattle.numbers.specs.Entries.{entries_in};
ghost use Rattle.numbers.specs.Leaves.{Leaves};
ghost use Rattle.member_sets.specs.Sets.{set_most};
ghost use Rattle.member_sets.specs.Dead.{Dead};
ghost use Rattle.ligature_members.specs.Left.{ligature_left};

use area::{over, put};
use cell_maps::Map;
use ligature_members::write_once;
use member_sets::close_set;
use wire::word_inside;

// What is left of the set of ligatures at `at`, from `pos` on: its count, an offset for each ligature that is left, and these ligatures; nothing if none is left. `dead` has marks at the places of ligatures that are known to go.
pub fn write_ligatures(
    src: &[u8],
    at: usize,
    t: &[u32],
    glyphs: Map,
    dead: &mut [u32],
    area: &mut [u8],
    pos: usize,
) -> usize
    requires { (set_fault (ligature_fault src.now) src.now at ≡ None) × (length src.now ≤ limit) × Inside t.now glyphs × (pos ≤ length area.old) × Dead (ligature_left (entries_in t.now glyphs) src.now) dead.old }
    ensures { Leaves area.old pos (block (set_words ligature_words) (cut_ligatures (entries_in t.now glyphs) (ligature_set src.now at))) (set_most ligature_words (cut_ligatures (entries_in t.now glyphs) (ligature_set src.now at)) src.now) area.new result × Dead (ligature_left (entries_in t.now glyphs) src.now) dead.new }
{
    let n = word_inside(src, at);
    let first = pos + 2 + 2 * n;
    if area.len() < first {
        return over(area);
    }
    let mut k = 0;
    let mut p = first;
    for i in 0..n {
        let off = word_inside(src, at + 2 + 2 * i);
        if off == 0 {
            continue;
        }
        let q = write_once(src, at + off, t, glyphs, dead, area, p);
        if area.len() < q {
            return q;
        }
        if q == 0 {
            continue;
        }
        put(area, pos + 2 + 2 * k, p - pos);
        k += 1;
        p = q;
    }
    close_set(area, pos, k, first, p)
}
