// Class kerning, pairs by class: a coverage, first and second classes, and a row of cells for each first class; cut in one walk, from the source into the area.
#![tactic(auto)]

ghost use Rattle.std.specs.Prelude.{◌≡◌, [], ◌+◌, ◌≤◌, ◌<◌, length};
ghost use Rattle.meaning.specs.Maps.{glyph_entries};
ghost use Rattle.meaning.specs.Tables.{pair_table};
ghost use Rattle.meaning.specs.Cut.{cut};
ghost use Rattle.meaning.specs.Subset.{limit, written_in};
ghost use Rattle.class_stretches.specs.Tables.{classes_at};
ghost use Rattle.tried.specs.Tries.{Tries};
ghost use Rattle.ranked_maps.specs.Mapped.{ToMap, Mapped};
ghost use Rattle.pair_classes.specs.Sides.{map_of, Asks, Sided};
ghost use Rattle.pair_layouts.specs.Laying.{Front};
ghost use Rattle.pair_classes.specs.Cutting.{enough_cells, has_null, Sound, Begins, Noting, FirstIn};

use cell_maps::Map;
use class_entries::new_entries;
use class_lists::{ClassList, list_classes};
use class_maps::{class_map, pinned_map};
use covered_map::put_covered;
use fold_glyphs::lay_glyphs;
use marks::Marks;
use meet_runs::meet;
use meets::most;
use pair_layouts::{Classed, Noted, lay_pairs};
use ranked_maps::ClassMap;
use room::{LIMIT, NotLaid};
use tried::NotCut;
use wire::word_inside;

// How many cells are enough for any source: 65,536 for the glyph map, as many for the notes of the covered glyphs, and for each of the two class tables as many for the classes of the glyphs, and those of the class map.
pub const CELLS: usize = 2 * 65536 + 2 * (65536 + class_maps::MOST);

// The map of the classes that are listed in the `l.len` cells from `list` on, in cells from `to` on. The second classes always have class 0 among them.
fn side_map(second: bool, t: &mut [u32], list: usize, l: ClassList, to: usize) -> ClassMap
    requires { ToMap t.old list l to }
    ensures { Mapped (map_of second) t.old t.new list l to result }
{
    if second {
        return pinned_map(t, list, l, to);
    }
    class_map(t, list, l, to)
}

// The first or the second classes, of the class table at `at`, in cells from `list` on: those that the glyphs of the map hold, and the entries of the new table. The mask is 0 where there are too few cells.
fn side_classes(
    second: bool,
    src: &[u8],
    at: usize,
    form: usize,
    glyphs: &[u8],
    t: &mut [u32],
    list: usize,
) -> Classed
    requires { Asks src.now at form glyphs.now list }
    ensures { Sided (map_of second (glyph_entries form glyphs.now) (classes_at src.now at)) (classes_at src.now at) (glyph_entries form glyphs.now) t.old t.new list result }
{
    let l = list_classes(src, at, glyphs, form, t, list);
    let c = side_map(second, t, list, l, list + l.len);
    let map = c.map;
    if map.mask == 0 {
        return Classed {
            map,
            count: 0,
            entries: Noted { at: list, len: 0 },
        };
    }
    let len = new_entries(t, list, l.len, map);
    Classed {
        map,
        count: c.count,
        entries: Noted { at: list, len },
    }
}

// What is left of the table, with the first classes in cells behind the notes of the covered glyphs, and the second ones still to be laid behind them.
fn cut_first(
    src: &[u8],
    marks: Marks,
    glyphs: &[u8],
    cover: Noted,
    first: Classed,
    t: &mut [u32],
    area: &mut [u8],
    out: &mut [u8],
) -> Result<usize, NotCut>
    requires { FirstIn src.now marks.form glyphs.now cover first t.old × (length area.old ≤ limit) }
    ensures { Tries (length t.old < enough_cells) (length area.old < limit) result out.old out.new (written_in marks.layout out.old (cut (glyph_entries marks.form glyphs.now) [] (pair_table src.now))) }
{
    let list = first.map.at + first.map.mask + 1;
    let second = side_classes(true, src, word_inside(src, 10), marks.form, glyphs, t, list);
    if second.map.mask == 0 {
        return Err(NotCut::FewCells);
    }
    lay_pairs(src, t, cover, first, second, marks.layout, area, out)
}

// The same with the covered glyphs noted in cells. Their entries of the glyph map stand in the area for as long as the first classes are laid, as pairs, the form 4.
fn cut_noted(
    src: &[u8],
    marks: Marks,
    glyphs: &[u8],
    cover: Noted,
    t: &mut [u32],
    area: &mut [u8],
    out: &mut [u8],
) -> Result<usize, NotCut>
    requires { Noting src.now marks.form glyphs.now cover t.old × (length area.old ≤ limit) }
    ensures { Tries (length t.old < enough_cells) (length area.old < limit) result out.old out.new (written_in marks.layout out.old (cut (glyph_entries marks.form glyphs.now) [] (pair_table src.now))) }
{
    let n = 4 * cover.len;
    if area.len() < n {
        return Err(NotCut::Short);
    }
    put_covered(src, word_inside(src, 2), t, cover.at, cover.len, area);
    let list = cover.at + cover.len;
    let first = side_classes(false, src, word_inside(src, 8), 4, &area[..n], t, list);
    if first.map.mask == 0 {
        return Err(NotCut::FewCells);
    }
    cut_first(src, marks, glyphs, cover, first, t, area, out)
}

// The same with the glyph map in cells from the first on.
fn cut_map(
    src: &[u8],
    marks: Marks,
    glyphs: &[u8],
    m: Map,
    t: &mut [u32],
    area: &mut [u8],
    out: &mut [u8],
) -> Result<usize, NotCut>
    requires { Begins src.now marks.form glyphs.now m t.old × (length area.old ≤ limit) }
    ensures { Tries (length t.old < enough_cells) (length area.old < limit) result out.old out.new (written_in marks.layout out.old (cut (glyph_entries marks.form glyphs.now) [] (pair_table src.now))) }
{
    let at = m.mask + 1;
    let cover = word_inside(src, 2);
    if t.len() <= at + most(src, cover, glyphs, marks.form) {
        return Err(NotCut::FewCells);
    }
    let len = meet(src, cover, glyphs, marks.form, m, t, at);
    if len == 0 {
        return Err(NotCut::Refused(NotLaid::Nothing));
    }
    cut_noted(src, marks, glyphs, Noted { at, len }, t, area, out)
}

// Whether the coverage or one of the class tables is null.
fn has_null(src: &[u8]) -> bool
    requires { 16 ≤ length src.now }
    ensures { result ≡ has_null src.now }
{
    if word_inside(src, 2) == 0 {
        return true;
    }
    if word_inside(src, 8) == 0 {
        return true;
    }
    word_inside(src, 10) == 0
}

// What is left of a sound table, with an area that is not over the limit.
fn cut_in(
    src: &[u8],
    marks: Marks,
    glyphs: &[u8],
    t: &mut [u32],
    area: &mut [u8],
    out: &mut [u8],
) -> Result<usize, NotCut>
    requires { Sound src.now marks.form glyphs.now × (length area.old ≤ limit) }
    ensures { Tries (length t.old < enough_cells) (length area.old < limit) result out.old out.new (written_in marks.layout out.old (cut (glyph_entries marks.form glyphs.now) [] (pair_table src.now))) }
{
    if has_null(src) {
        return Err(NotCut::Refused(NotLaid::Nothing));
    }
    let m = lay_glyphs(glyphs, marks.form, t, 0);
    if m.mask == 0 {
        return Err(NotCut::FewCells);
    }
    cut_map(src, marks, glyphs, m, t, area, out)
}

// How much of the area is used: all of it, but not more than the limit.
fn front(area: &[u8]) -> usize
    ensures { Front (length area.now) result }
{
    if LIMIT < area.len() {
        return LIMIT;
    }
    area.len()
}

// What is left of a sound pair table by class under a glyph map, laid into the buffer if its layout fits and the buffer is not shorter. `t` and `area` are scratch, whatever they hold.
// The buffer is untouched where nothing is left, where there is no room, and where the scratch is too short.
pub fn class_pairs(
    src: &[u8],
    glyphs: &[u8],
    marks: Marks,
    t: &mut [u32],
    area: &mut [u8],
    out: &mut [u8],
) -> Result<usize, NotCut>
    requires { Sound src.now marks.form glyphs.now }
    ensures { Tries (length t.old < enough_cells) (length area.old < limit) result out.old out.new (written_in marks.layout out.old (cut (glyph_entries marks.form glyphs.now) [] (pair_table src.now))) }
{
    let n = front(area);
    cut_in(src, marks, glyphs, t, &mut area[..n], out)
}
