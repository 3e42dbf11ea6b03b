// Pair sets: the pairs that survive, with the fields that stay, written into the area in one walk.
#![tactic(auto)]

ghost use Rattle.std.specs.Prelude.{◌∷◌, map, ◌+◌, ◌*◌, ◌<◌, ◌≤◌, length};
ghost use Rattle.meaning.specs.Words.{word, find};
ghost use Rattle.cell_maps.specs.Cells.{Inside};
ghost use Rattle.area.specs.Extends.{Extends};
ghost use Rattle.numbers.specs.Entries.{entries_in};
ghost use Rattle.numbers.specs.Leaves.{Leaves};
ghost use Rattle.pair_fields.specs.Pairs.{value_at, Places, Reads, pairs_left, pairs_most};

use area::{over, put};
use cell_maps::Map;
use fold::find;
use pair_fields::value_at;
use wire::word_inside;

// The value formats of a pair table, those of the source and the new ones, and how long a pair record of the source is, or a cell.
#[derive(Clone, Copy)]
pub struct Formats {
    pub f1: usize,
    pub f2: usize,
    pub n1: usize,
    pub n2: usize,
    pub size: usize,
}

// The values at `places` of the pair record at `p`, from `pos` on, where there is room for them; the place after them.
pub fn write_values(src: &[u8], p: usize, places: &[u32], area: &mut [u8], pos: usize) -> usize
    requires { Reads src.now p places.now × (pos + 2 * length places.now ≤ length area.old) }
    ensures { Extends area.old pos (map (value_at src.now p) places.now) area.new result }
{
    for (i, place) in places.iter().enumerate() {
        let value = value_at(src, p, *place as usize);
        put(area, pos + 2 * i, value);
    }
    pos + 2 * places.len()
}

// The new second glyph and the values at `places` of the pair record at `p`, from `pos` on, where there is room for them; the place after them.
fn write_pair(
    src: &[u8],
    p: usize,
    size: usize,
    new: usize,
    places: &[u32],
    area: &mut [u8],
    pos: usize,
) -> usize
    requires { (p + size ≤ length src.now) × Places places.now size × (pos + 2 + 2 * length places.now ≤ length area.old) }
    ensures { Extends area.old pos (new ∷ map (value_at src.now p) places.now) area.new result }
{
    let q = put(area, pos, new);
    write_values(src, p, places, area, q)
}

// What is left of the pair set at `at`, whose records are `size` bytes long, from `pos` on: its count, and the pairs whose second glyph is retained, each with the values at `places`; nothing if none is left.
pub fn write_pairs(
    src: &[u8],
    at: usize,
    size: usize,
    places: &[u32],
    t: &[u32],
    glyphs: Map,
    area: &mut [u8],
    pos: usize,
) -> usize
    requires { (at + 2 + size * word src.now at ≤ length src.now) × Places places.now size × Inside t.now glyphs × (pos ≤ length area.old) }
    ensures { Leaves area.old pos (pairs_left (entries_in t.now glyphs) src.now size places.now at) (pairs_most (pairs_left (entries_in t.now glyphs) src.now size places.now at) places.now) area.new result }
{
    let n = word_inside(src, at);
    let each = 2 + 2 * places.len();
    if area.len() < pos + 2 {
        return over(area);
    }
    let mut k = 0;
    let mut q = pos + 2;
    let mut p = at + 2;
    for _i in 0..n {
        if area.len() < q + each {
            return over(area);
        }
        let second = word_inside(src, p);
        if let Some(new) = find(t, glyphs, second) {
            q = write_pair(src, p, size, new, places, area, q);
            k += 1;
        }
        p += size;
    }
    if k == 0 {
        return 0;
    }
    put(area, pos, k);
    q
}
