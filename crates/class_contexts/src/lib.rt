// Format 2 of contexts and chained contexts: a coverage, class tables and sets of rules by class; cut in one walk, from the source into the area.
#![tactic(auto)]

ghost use Rattle.std.specs.Prelude.{◌≤◌, ◌<◌, length};
ghost use Rattle.meaning.specs.Maps.{map_entries, glyph_entries};
ghost use Rattle.meaning.specs.Tables.{class_context};
ghost use Rattle.meaning.specs.Cut.{cut};
ghost use Rattle.meaning.specs.Subset.{written_in};
ghost use Rattle.room.specs.Laid.{enough_area};
ghost use Rattle.tried.specs.Tries.{Tries};
ghost use Rattle.context_classes.specs.Cutting.{enough_cells, Sound, Behind, Covers, NotesCovered, Cuts};

use class_layouts::write_left;
use class_maps::MOST;
use class_places::input_at;
use context_classes::{Begun, lay_classes, prepare};
use fold_glyphs::lay_glyphs;
use fold_pairs::{cells, lay};
use marks::Marks;
use meet_runs::meet;
use meets::most;
use remade_classes::Noted;
use room::{AREA, NotLaid};
use tried::NotCut;
use wire::word_at;

// The number of cells that is enough for any source: 65,536 that take turns as the glyph map, the list of a class table's classes and the lookup map, and as many for the notes of the covered glyphs; three class maps; and 2,048 for the marks, 32 in each.
pub const CELLS: usize = 2 * 65536 + 3 * MOST + 2048;

// What is left of a sound context whose retained covered glyphs are noted in cells, handed over if there is room.
fn cut_noted(
    begun: Begun,
    src: &[u8],
    glyphs: &[u8],
    lookups: &[u8],
    t: &mut [u32],
    area: &mut [u8],
    out: &mut [u8],
) -> Result<usize, NotCut>
    requires { Cuts src.now glyphs.now lookups.now begun t.old area.old }
    ensures { Tries (length t.old < enough_cells) (length area.old < enough_area) result out.old out.new (written_in begun.marks.layout out.old (cut (glyph_entries begun.marks.form glyphs.now) (map_entries lookups.now) (class_context begun.chained src.now))) }
{
    let classed = lay_classes(begun, src, glyphs, t);
    if classed.input.map.mask == 0 {
        return Err(NotCut::FewCells);
    }
    let l = lay(lookups, &mut t[..begun.cover.at], 0);
    if l.mask == 0 {
        return Err(NotCut::FewCells);
    }
    let prepared = prepare(begun, src, classed, l);
    write_left(
        src,
        glyphs,
        t,
        prepared,
        glyphs.len() % begun.marks.form,
        area,
        out,
    )
}

// Where the notes of the covered glyphs begin: behind the cells of the glyph map, of this mask, and behind those that the lists of classes and the lookup map take in their place. That is the same for any map where the cells are enough for any source; else it is likely to be enough.
fn notes_at(mask: usize, lookups: &[u8], all: usize) -> usize
    requires { mask < 65536 }
    ensures { Behind mask all result }
{
    if CELLS <= all {
        return 65536;
    }
    (mask + 1).max(cells(lookups)).max(all / 4)
}

// The retained covered glyphs, noted in cells behind those that the glyph map takes, and then others in its place. The place is 0 where there are too few cells.
fn note_covered(src: &[u8], glyphs: &[u8], form: usize, lookups: &[u8], t: &mut [u32]) -> Noted
    requires { Covers src.now form glyphs.now }
    ensures { NotesCovered src.now (glyph_entries form glyphs.now) t.old t.new result }
{
    let m = lay_glyphs(glyphs, form, t, 0);
    if m.mask == 0 {
        return Noted { at: 0, len: 0 };
    }
    let at = notes_at(m.mask, lookups, t.len());
    let cover = word_at(src, 2);
    if t.len() <= at + most(src, cover, glyphs, form) {
        return Noted { at: 0, len: 0 };
    }
    let len = meet(src, cover, glyphs, form, m, t, at);
    Noted { at, len }
}

// What is left of a sound context, from the maps' lists, handed over if there is room, with lent scratch whose content is arbitrary.
fn cut_in(
    chained: bool,
    src: &[u8],
    marks: Marks,
    glyphs: &[u8],
    lookups: &[u8],
    t: &mut [u32],
    area: &mut [u8],
    out: &mut [u8],
) -> Result<usize, NotCut>
    requires { Sound chained src.now marks.form glyphs.now lookups.now × (length t.old ≤ 0x1_0000_0000) × (length area.old ≤ 0x1_0000_0000) }
    ensures { Tries (length t.old < enough_cells) (length area.old < enough_area) result out.old out.new (written_in marks.layout out.old (cut (glyph_entries marks.form glyphs.now) (map_entries lookups.now) (class_context chained src.now))) }
{
    if word_at(src, 2) == 0 {
        return Err(NotCut::Refused(NotLaid::Nothing));
    }
    if input_at(chained, src) == 0 {
        return Err(NotCut::Refused(NotLaid::Nothing));
    }
    let cover = note_covered(src, glyphs, marks.form, lookups, t);
    if cover.at == 0 {
        return Err(NotCut::FewCells);
    }
    if cover.len == 0 {
        return Err(NotCut::Refused(NotLaid::Nothing));
    }
    let begun = Begun {
        chained,
        marks,
        cover,
    };
    cut_noted(begun, src, glyphs, lookups, t, area, out)
}

// What is left of a sound context by class, plain or chained, under a glyph map and a lookup map, in the layout that is asked for, handed over if there is room, with lent scratch whose content is arbitrary.
pub fn by_class(
    chained: bool,
    src: &[u8],
    glyphs: &[u8],
    marks: Marks,
    lookups: &[u8],
    t: &mut [u32],
    area: &mut [u8],
    out: &mut [u8],
) -> Result<usize, NotCut>
    requires { Sound chained src.now marks.form glyphs.now lookups.now }
    ensures { Tries (length t.old < enough_cells) (length area.old < enough_area) result out.old out.new (written_in marks.layout out.old (cut (glyph_entries marks.form glyphs.now) (map_entries lookups.now) (class_context chained src.now))) }
{
    let cells = t.len().min(CELLS);
    let bytes = area.len().min(AREA);
    cut_in(
        chained,
        src,
        marks,
        glyphs,
        lookups,
        &mut t[..cells],
        &mut area[..bytes],
        out,
    )
}
