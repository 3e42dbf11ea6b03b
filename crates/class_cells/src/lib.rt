// The cells of class kerning: the kept rows with the kept cells, written into the area. The places of a cell's fields are counted as `class_formats` counts them.
#![tactic(auto)]

ghost use Rattle.std.specs.Prelude.{map, ◌+◌, ◌*◌, ◌≤◌, length};
ghost use Rattle.meaning.specs.Words.{word, find};
ghost use Rattle.cell_maps.specs.Cells.{Inside};
ghost use Rattle.area.specs.Extends.{Tried};
ghost use Rattle.numbers.specs.Entries.{entries_in};
ghost use Rattle.pair_fields.specs.Pairs.{value_at, Places, Reads};
ghost use Rattle.class_formats.specs.Cells.{if_kept, row_left, cells_left, HasRow, HasCells};
ghost use Rattle.class_formats.specs.Kept.{AsksCells, AsksRows, kept_cells};

use area::over;
use cell_maps::Map;
use fold::find;
use pair_places::kept_places;
use pair_sets::{Formats, write_values};
use wire::word_inside;

// The values at `places` of the cell at `p`, if its second class `c` is kept, from `pos` on; the place after them.
fn write_cell(
    src: &[u8],
    p: usize,
    places: &[u32],
    t: &[u32],
    seconds: Map,
    c: usize,
    area: &mut [u8],
    pos: usize,
) -> usize
    requires { Reads src.now p places.now × Inside t.now seconds × (pos ≤ length area.old) }
    ensures { Tried area.old pos (if_kept (find (entries_in t.now seconds) c) (map (value_at src.now p) places.now)) area.new result }
{
    let Some(_) = find(t, seconds, c) else {
        return pos;
    };
    if area.len() < pos + 2 * places.len() {
        return over(area);
    }
    write_values(src, p, places, area, pos)
}

// The kept cells of the row at `p`, whose cells are `size` bytes long, each with the values at `places`, from `pos` on; the place after them.
fn write_row(
    src: &[u8],
    p: usize,
    size: usize,
    places: &[u32],
    t: &[u32],
    seconds: Map,
    area: &mut [u8],
    pos: usize,
) -> usize
    requires { HasRow src.now size p × Places places.now (size + 2) × Inside t.now seconds × (pos ≤ length area.old) }
    ensures { Tried area.old pos (row_left (entries_in t.now seconds) src.now size places.now 0 p (word src.now 14)) area.new result }
{
    let n = word_inside(src, 14);
    let mut q = pos;
    let mut cell = p;
    for c in 0..n {
        q = write_cell(src, cell, places, t, seconds, c, area, q);
        if area.len() < q {
            return q;
        }
        cell += size;
    }
    q
}

// The kept rows so, from `pos` on; the place after them. Cells with no field that stays take no bytes.
fn write_rows(
    src: &[u8],
    size: usize,
    places: &[u32],
    t: &[u32],
    firsts: Map,
    seconds: Map,
    area: &mut [u8],
    pos: usize,
) -> usize
    requires { HasCells src.now size × Places places.now (size + 2) × Inside t.now firsts × Inside t.now seconds × (pos ≤ length area.old) }
    ensures { Tried area.old pos (cells_left (entries_in t.now firsts) (entries_in t.now seconds) src.now size places.now) area.new result }
{
    if places.len() == 0 {
        return pos;
    }
    let n = word_inside(src, 12);
    let row = size * word_inside(src, 14);
    let mut q = pos;
    let mut p = 14;
    for c in 0..n {
        if let Some(_) = find(t, firsts, c) {
            q = write_row(src, p, size, places, t, seconds, area, q);
        }
        if area.len() < q {
            return q;
        }
        p += row;
    }
    q
}

// The kept rows with the kept cells under the new formats, from `pos` on; the place after them, or more than the length of the area, which is then too short for them.
pub fn write_cells(
    src: &[u8],
    f: Formats,
    t: &[u32],
    firsts: Map,
    seconds: Map,
    area: &mut [u8],
    pos: usize,
) -> usize
    requires { AsksCells src.now t.now firsts seconds × AsksRows src.now f × (pos ≤ length area.old) }
    ensures { Tried area.old pos (kept_cells (entries_in t.now firsts) (entries_in t.now seconds) src.now f.n1 f.n2) area.new result }
{
    let mut places = [0u32; 8];
    let k = kept_places(f.f1, f.f2, f.n1, f.n2, &mut places);
    write_rows(src, f.size, &places[..k], t, firsts, seconds, area, pos)
}
