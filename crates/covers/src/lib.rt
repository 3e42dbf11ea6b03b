// Format 3 of contexts and chained contexts: coverages for backtrack, input and lookahead, and records; cut in one walk, from the source into the area.
#![tactic(auto)]

ghost use Rattle.std.specs.Prelude.{true, ◌+◌, ◌-◌, ◌*◌, ◌≤◌, ◌<◌, length};
ghost use Rattle.meaning.specs.Maps.{map_entries, glyph_entries};
ghost use Rattle.cover_contexts.specs.Context.{MostNotes};
ghost use Rattle.cover_parts.specs.Rows.{SoundRow};
ghost use Rattle.glyph_runs.specs.Runs.{GlyphMap};
ghost use Rattle.cover_layouts.specs.Cutting.{HandsOver, Cuts, CutsInto, Sound, enough_cells};
ghost use Rattle.meaning.specs.Tables.{cover_context};
ghost use Rattle.meaning.specs.Cut.{cut};
ghost use Rattle.meaning.specs.Subset.{written_in};
ghost use Rattle.room.specs.Laid.{enough_area};
ghost use Rattle.tried.specs.Tries.{Tries};

use cover_contexts::Cells;
use cover_layouts::write_in;
use cover_parts::{CoverParts, Held, cover_parts, most_row};
use fold_glyphs::lay_glyphs;
use fold_pairs::lay;
use handing::hand_over;
use marks::Marks;
use room::{AREA, NotLaid};
use tried::{NotCut, no_room};

// The number of cells that is enough for any source: two maps of 65,536 cells each, and a note for each glyph and one more.
pub const CELLS: usize = 196609;

// What was written into the area up to `end`, handed over: nothing if `end` is 0; where it is past the area, the layout is too big if the area has enough bytes.
fn settle(end: usize, area: &[u8], out: &mut [u8]) -> Result<usize, NotCut>
    ensures { HandsOver end area.now result out.old out.new }
{
    if end == 0 {
        return Err(NotCut::Refused(NotLaid::Nothing));
    }
    if area.len() < end {
        return Err(no_room(area, AREA));
    }
    Ok(hand_over(area, 0, 0, end, true, out)?)
}

// A bound for how many glyphs are noted of any coverage of the context.
fn most_notes(src: &[u8], parts: CoverParts, glyphs: &[u8], form: usize) -> usize
    requires { SoundRow src.now parts.back × SoundRow src.now parts.input × SoundRow src.now parts.ahead × GlyphMap form glyphs.now }
    ensures { MostNotes form glyphs.now src.now parts result }
{
    let back = most_row(src, parts.back, glyphs, form, 0);
    let input = most_row(src, parts.input, glyphs, form, back);
    most_row(src, parts.ahead, glyphs, form, input)
}

// What is left of a sound context, with both maps in cells, handed over if there is room.
fn cut_context(
    chained: bool,
    src: &[u8],
    glyphs: &[u8],
    packing: usize,
    cells: Cells,
    t: &mut [u32],
    area: &mut [u8],
    out: &mut [u8],
) -> Result<usize, NotCut>
    requires { Cuts chained src.now glyphs.now cells.glyphs cells.lookups t.old area.old }
    ensures { CutsInto packing chained src.now glyphs.now cells.glyphs cells.lookups t.old area.old result out.old out.new }
{
    let parts = cover_parts(chained, src);
    let notes = cells.glyphs.map.at + cells.glyphs.map.mask + 1;
    if t.len() <= notes + most_notes(src, parts, glyphs, cells.glyphs.form) {
        return Err(NotCut::FewCells);
    }
    if area.len() < parts.records.at + 4 * parts.records.len {
        return Err(NotCut::Short);
    }
    let end = write_in(packing, chained, src, parts, glyphs, cells, t, area);
    settle(end, area, out)
}

// The same from the maps' lists, with lent scratch whose content is arbitrary.
fn cut_in(
    chained: bool,
    src: &[u8],
    glyphs: &[u8],
    marks: Marks,
    lookups: &[u8],
    t: &mut [u32],
    area: &mut [u8],
    out: &mut [u8],
) -> Result<usize, NotCut>
    requires { Sound chained marks.form src.now glyphs.now lookups.now × (length t.old ≤ 0x1_0000_0000) × (length area.old ≤ 0x1_0000_0000) }
    ensures { Tries (length t.old < enough_cells) (length area.old < enough_area) result out.old out.new (written_in marks.layout out.old (cut (glyph_entries marks.form glyphs.now) (map_entries lookups.now) (cover_context chained src.now))) }
{
    let l = lay(lookups, t, 0);
    if l.mask == 0 {
        return Err(NotCut::FewCells);
    }
    let g = lay_glyphs(glyphs, marks.form, t, l.mask + 1);
    if g.mask == 0 {
        return Err(NotCut::FewCells);
    }
    let held = Held {
        form: marks.form,
        map: g,
    };
    let cells = Cells {
        glyphs: held,
        lookups: l,
    };
    cut_context(chained, src, glyphs, marks.layout, cells, t, area, out)
}

// What is left of a sound context by coverages, plain or chained, under a glyph map and a lookup map, handed over if there is room, with lent scratch whose content is arbitrary.
pub fn by_cover(
    chained: bool,
    src: &[u8],
    glyphs: &[u8],
    marks: Marks,
    lookups: &[u8],
    t: &mut [u32],
    area: &mut [u8],
    out: &mut [u8],
) -> Result<usize, NotCut>
    requires { Sound chained marks.form src.now glyphs.now lookups.now }
    ensures { Tries (length t.old < enough_cells) (length area.old < enough_area) result out.old out.new (written_in marks.layout out.old (cut (glyph_entries marks.form glyphs.now) (map_entries lookups.now) (cover_context chained src.now))) }
{
    let cells = t.len().min(CELLS);
    let bytes = area.len().min(AREA);
    cut_in(
        chained,
        src,
        glyphs,
        marks,
        lookups,
        &mut t[..cells],
        &mut area[..bytes],
        out,
    )
}
