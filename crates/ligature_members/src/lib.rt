// A ligature: what is left of it, written into the area.
#![tactic(auto)]

ghost use Rattle.std.specs.Prelude.{◌≡◌, ◌≤◌, ◌<◌, length, None};
ghost use Rattle.meaning.specs.Tables.{ligature};
ghost use Rattle.meaning.specs.Fault.{ligature_fault};
ghost use Rattle.meaning.specs.Cut.{cut_ligature};
ghost use Rattle.meaning.specs.Layout.{block, ligature_words};
ghost use Rattle.cell_maps.specs.Cells.{Inside};
ghost use Rattle.numbers.specs.Entries.{entries_in};
ghost use Rattle.numbers.specs.Leaves.{Leaves};
ghost use Rattle.member_sets.specs.Dead.{Dead};
ghost use Rattle.ligature_members.specs.Left.{ligature_left, ligature_size};

use area::{over, put_two};
use bits::{has_bit, put_bit};
use cell_maps::Map;
use fold::find;
use numbers::renumber;
use wire::word_inside;

// What is left of the ligature at `at`, from `pos` on: nothing if its glyph or one of its components after the first has no new number.
fn write_ligature(
    src: &[u8],
    at: usize,
    t: &[u32],
    glyphs: Map,
    area: &mut [u8],
    pos: usize,
) -> usize
    requires { (ligature_fault src.now at ≡ None) × Inside t.now glyphs × (pos ≤ length area.old) }
    ensures { Leaves area.old pos (block ligature_words (cut_ligature (entries_in t.now glyphs) (ligature src.now at))) (ligature_size src.now at) area.new result }
{
    let old = word_inside(src, at);
    let Some(glyph) = find(t, glyphs, old) else {
        return 0;
    };
    if area.len() < pos + 4 {
        return over(area);
    }
    let count = word_inside(src, at + 2);
    let p = put_two(area, pos, glyph, count);
    renumber(src, at + 4, count.saturating_sub(1), t, glyphs, area, p)
}

// The same, where a ligature whose place has a mark in `dead` is known to go. One that is found to go gets a mark, if there is room for it.
pub fn write_once(
    src: &[u8],
    at: usize,
    t: &[u32],
    glyphs: Map,
    dead: &mut [u32],
    area: &mut [u8],
    pos: usize,
) -> usize
    requires { (ligature_fault src.now at ≡ None) × Inside t.now glyphs × (0 < pos) × (pos ≤ length area.old) × Dead (ligature_left (entries_in t.now glyphs) src.now) dead.old }
    ensures { Leaves area.old pos (ligature_left (entries_in t.now glyphs) src.now at) (ligature_size src.now at) area.new result × Dead (ligature_left (entries_in t.now glyphs) src.now) dead.new }
{
    if has_bit(dead, 0, at) {
        return 0;
    }
    let q = write_ligature(src, at, t, glyphs, area, pos);
    if q == 0 {
        put_bit(dead, 0, at);
    }
    q
}
