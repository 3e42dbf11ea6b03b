// A class table of the source, listed once more when its new one is written, and turned into the entries of that.
#![tactic(auto)]

ghost use Rattle.std.specs.Prelude.{◌≤◌, length};
ghost use Rattle.meaning.specs.Maps.{glyph_entries};
ghost use Rattle.glyph_runs.specs.Runs.{GlyphMap};
ghost use Rattle.class_stretches.specs.Tables.{classes_at, NullOrSound};
ghost use Rattle.remade_classes.specs.Made.{ListedFront, MakeAsked, Made};

use cell_maps::Map;
use class_entries::new_entries;
use class_lists::{ClassList, list_classes};

// Cells in a row: where the first stands, and how many there are.
#[derive(Clone, Copy)]
pub struct Noted {
    pub at: usize,
    pub len: usize,
}

// A class table of the source: where it stands, which is 0 if it is null, and its class map in cells.
#[derive(Clone, Copy)]
pub struct OldTable {
    pub at: usize,
    pub map: Map,
}

// A new class table: where the old one stands in the source, which is 0 if it is null, and the cells that its entries are noted in.
#[derive(Clone, Copy)]
pub struct NewTable {
    pub old: usize,
    pub list: usize,
    pub len: usize,
}

// What follows the sets, and what it takes to write it: whether the context is chained, and the form of the glyph map; the glyphs of the new coverage, which are noted in cells; and the class tables, whose maps stand behind the notes. The cells before the notes are free once the sets are written.
#[derive(Clone, Copy)]
pub struct Tail {
    pub chained: bool,
    pub form: usize,
    pub cover: Noted,
    pub back: OldTable,
    pub input: OldTable,
    pub ahead: OldTable,
}

// The classes of the retained glyphs in the class table at `at`, which may be null, at 0, in the first `front` cells, if there is room for them all; the other cells are as before.
pub fn list_front(
    src: &[u8],
    at: usize,
    glyphs: &[u8],
    form: usize,
    t: &mut [u32],
    front: usize,
) -> ClassList
    requires { NullOrSound src.now at × GlyphMap form glyphs.now × (front ≤ length t.old) }
    ensures { ListedFront (classes_at src.now at) (glyph_entries form glyphs.now) t.old t.new front result }
{
    list_classes(src, at, glyphs, form, &mut t[..front], 0)
}

// The new class table of an old one, noted in the first `front` cells.
pub fn make_table(
    src: &[u8],
    old: OldTable,
    glyphs: &[u8],
    form: usize,
    t: &mut [u32],
    front: usize,
) -> NewTable
    requires { MakeAsked src.now old glyphs.now form t.old front }
    ensures { Made (glyph_entries form glyphs.now) src.now old.at t.old t.new front result }
{
    let l = list_front(src, old.at, glyphs, form, t, front);
    let len = new_entries(t, 0, l.len, old.map);
    NewTable {
        old: old.at,
        list: 0,
        len,
    }
}
