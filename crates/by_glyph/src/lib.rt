// Format 1 of ligatures and contexts, cut in one walk: the retained covered glyphs are noted in cells, what is left of their sets is written into the area, and the table is handed over to the buffer.
#![tactic(auto)]

ghost use Rattle.std.specs.Prelude.{◌≡◌, true, [], ◌+◌, ◌≤◌, ◌<◌, length, None};
ghost use Rattle.meaning.specs.Words.{word, ascends, keys};
ghost use Rattle.meaning.specs.Maps.{map_entries, glyph_entries};
ghost use Rattle.meaning.specs.Fault.{header_fault, enough};
ghost use Rattle.meaning.specs.Cut.{cut};
ghost use Rattle.meaning.specs.Subset.{limit, written_in};
ghost use Rattle.room.specs.Laid.{enough_area};
ghost use Rattle.glyph_runs.specs.Runs.{GlyphMap};
ghost use Rattle.placed_sets.specs.Sorts.{set_fault_of};
ghost use Rattle.placed_sets.specs.declared.Sort.TheVariants.{Rules, Ligatures};
ghost use Rattle.tried.specs.Tries.{Tries};
ghost use Rattle.cut_sets.specs.Whole.{cells_most, glyph_context, ligature_table};

use cut_sets::cut_sets;
use fold_glyphs::lay_glyphs;
use fold_pairs::lay;
use kept_rules::Maps;
use marks::Marks;
use placed_sets::Sort;
use room::{AREA, NotLaid};
use tried::NotCut;
use wire::word_inside;

// What `cut_sets::cut_sets` does, from the source and the map's list on, for ligatures.
fn cut_ligatures(
    src: &[u8],
    glyphs: &[u8],
    marks: Marks,
    t: &mut [u32],
    area: &mut [u8],
    out: &mut [u8],
) -> Result<usize, NotCut>
    requires { (header_fault (enough src.now (word src.now 4)) 0 4 (set_fault_of Ligatures src.now) src.now ≡ None) × (length src.now ≤ limit) × GlyphMap marks.form glyphs.now × (length area.old ≤ enough_area) }
    ensures { Tries (length t.old < cells_most) (length area.old < enough_area) result out.old out.new (written_in marks.layout out.old (cut (glyph_entries marks.form glyphs.now) [] (ligature_table src.now))) }
{
    if word_inside(src, 2) == 0 {
        return Err(NotCut::Refused(NotLaid::Nothing));
    }
    let g = lay_glyphs(glyphs, marks.form, t, 0);
    if g.mask == 0 {
        return Err(NotCut::FewCells);
    }
    let maps = Maps {
        back: g,
        input: g,
        ahead: g,
        lookups: g,
    };
    cut_sets(Sort::Ligatures, src, glyphs, marks, maps, t, area, out)
}

// The same for contexts by glyph, plain or chained.
fn cut_contexts(
    chained: bool,
    src: &[u8],
    glyphs: &[u8],
    marks: Marks,
    lookups: &[u8],
    t: &mut [u32],
    area: &mut [u8],
    out: &mut [u8],
) -> Result<usize, NotCut>
    requires { (header_fault (enough src.now (word src.now 4)) 0 4 (set_fault_of (Rules chained) src.now) src.now ≡ None) × (length src.now ≤ limit) × GlyphMap marks.form glyphs.now × (ascends (keys (map_entries lookups.now)) ≡ true) × (length area.old ≤ enough_area) }
    ensures { Tries (length t.old < cells_most) (length area.old < enough_area) result out.old out.new (written_in marks.layout out.old (cut (glyph_entries marks.form glyphs.now) (map_entries lookups.now) (glyph_context chained src.now))) }
{
    if word_inside(src, 2) == 0 {
        return Err(NotCut::Refused(NotLaid::Nothing));
    }
    let g = lay_glyphs(glyphs, marks.form, t, 0);
    if g.mask == 0 {
        return Err(NotCut::FewCells);
    }
    let l = lay(lookups, t, g.mask + 1);
    if l.mask == 0 {
        return Err(NotCut::FewCells);
    }
    let maps = Maps {
        back: g,
        input: g,
        ahead: g,
        lookups: l,
    };
    cut_sets(Sort::Rules(chained), src, glyphs, marks, maps, t, area, out)
}

// What is left of a sound table of ligatures under a glyph map, laid into the buffer if it is not too big and the buffer is not shorter. `t` and `area` are scratch, whatever they hold.
// The buffer is untouched where nothing is left, where there is no room, and where the scratch is too short.
pub fn ligatures(
    src: &[u8],
    glyphs: &[u8],
    marks: Marks,
    t: &mut [u32],
    area: &mut [u8],
    out: &mut [u8],
) -> Result<usize, NotCut>
    requires { (header_fault (enough src.now (word src.now 4)) 0 4 (set_fault_of Ligatures src.now) src.now ≡ None) × (length src.now ≤ limit) × GlyphMap marks.form glyphs.now }
    ensures { Tries (length t.old < cells_most) (length area.old < enough_area) result out.old out.new (written_in marks.layout out.old (cut (glyph_entries marks.form glyphs.now) [] (ligature_table src.now))) }
{
    let bytes = area.len().min(AREA);
    cut_ligatures(src, glyphs, marks, t, &mut area[..bytes], out)
}

// The same of a context by glyph, plain or chained, under a glyph map and a lookup map.
pub fn contexts(
    chained: bool,
    src: &[u8],
    glyphs: &[u8],
    marks: Marks,
    lookups: &[u8],
    t: &mut [u32],
    area: &mut [u8],
    out: &mut [u8],
) -> Result<usize, NotCut>
    requires { (header_fault (enough src.now (word src.now 4)) 0 4 (set_fault_of (Rules chained) src.now) src.now ≡ None) × (length src.now ≤ limit) × GlyphMap marks.form glyphs.now × (ascends (keys (map_entries lookups.now)) ≡ true) }
    ensures { Tries (length t.old < cells_most) (length area.old < enough_area) result out.old out.new (written_in marks.layout out.old (cut (glyph_entries marks.form glyphs.now) (map_entries lookups.now) (glyph_context chained src.now))) }
{
    let bytes = area.len().min(AREA);
    cut_contexts(
        chained,
        src,
        glyphs,
        marks,
        lookups,
        t,
        &mut area[..bytes],
        out,
    )
}
