// One class table of a context by class, in cells: its classes are listed, and its class map is laid; that of the input has marks of the classes that covered glyphs hold.
#![tactic(auto)]

ghost use Rattle.std.specs.Prelude.{◌≡◌, ◌<◌};
ghost use Rattle.meaning.specs.Maps.{glyph_entries};
ghost use Rattle.class_sides.specs.Sides.{mark_cells, Asks, Sided, InputAsks, InputLaid};

use cell_maps::Map;
use class_maps::{class_map, top};
use covered_classes::mark_covered;
use fold_pairs::cells;
use ranked_maps::ClassMap;
use remade_classes::{Noted, list_front};

// A class table in cells: how many classes are listed, and its class map.
#[derive(Clone, Copy)]
pub struct Side {
    pub len: usize,
    pub classes: ClassMap,
}

// The class map of the input, the number of surviving classes, and where the marks of the classes that covered glyphs hold begin, one bit for each class that can have an entry.
#[derive(Clone, Copy)]
pub struct Input {
    pub map: Map,
    pub classes: usize,
    pub marks: usize,
}

// The classes of the class table at `at`, which may be null, at 0, listed in the first `front` cells, and its class map in those from `to` on. The mask is 0 where there are too few cells.
pub fn class_side(
    src: &[u8],
    at: usize,
    form: usize,
    glyphs: &[u8],
    t: &mut [u32],
    front: usize,
    to: usize,
) -> Side
    requires { Asks src.now at form glyphs.now t.old front to }
    ensures { Sided src.now at (glyph_entries form glyphs.now) t.old t.new front to result }
{
    let l = list_front(src, at, glyphs, form, t, front);
    if front < l.len {
        let map = Map { at: to, mask: 0 };
        return Side {
            len: 0,
            classes: ClassMap { map, count: 0 },
        };
    }
    Side {
        len: l.len,
        classes: class_map(t, 0, l, to),
    }
}

// How many cells the marks take, one bit for each class that can have an entry.
pub fn mark_cells(map: Map) -> usize
    ensures { result ≡ mark_cells map }
{
    top(map) / 32 + 1
}

// What is answered where there are too few cells for the input.
pub fn no_input() -> Input
    ensures { result.map.mask ≡ 0 }
{
    Input {
        map: Map { at: 0, mask: 0 },
        classes: 0,
        marks: 0,
    }
}

// The class map of the input's class table, in the cells behind the notes of the covered glyphs, with marks of the classes that these hold. The mask is 0 where there are too few cells.
pub fn class_input(
    src: &[u8],
    at: usize,
    form: usize,
    glyphs: &[u8],
    noted: Noted,
    t: &mut [u32],
) -> Input
    requires { InputAsks src.now at form glyphs.now noted t.old }
    ensures { InputLaid src.now at (glyph_entries form glyphs.now) noted t.old t.new result }
{
    let side = class_side(src, at, form, glyphs, t, noted.at, noted.at + noted.len);
    let map = side.classes.map;
    if map.mask == 0 {
        return no_input();
    }
    let marks = map.at + map.mask + 1;
    let cells = mark_cells(map);
    if t.len() < marks + cells {
        return no_input();
    }
    mark_covered(t, noted.at, noted.len, 0, side.len, marks, cells);
    Input {
        map,
        classes: side.classes.count,
        marks,
    }
}
