// GSUB single substitutions: a delta that is added to each covered glyph (format 1), or a substitute for each (format 2). Cut in one walk:
// the retained covered glyphs are noted in cells, those whose substitutes are retained too stay there as pairs, and their table is written into the area and handed over to the buffer.
#![tactic(auto)]

ghost use Rattle.std.specs.Prelude.{[], ◌+◌, ◌<◌, length};
ghost use Rattle.meaning.specs.Maps.{glyph_entries};
ghost use Rattle.meaning.specs.Tables.{single};
ghost use Rattle.meaning.specs.Cut.{cut};
ghost use Rattle.meaning.specs.Subset.{limit, written};
ghost use Rattle.tried.specs.Tries.{Tries};
ghost use Rattle.single_subst.specs.Whole.{Sound, MapLaid, enough_cells};

use cell_maps::Map;
use fold::entry;
use fold_glyphs::lay_glyphs;
use meet_runs::meet;
use meets::most;
use room::NotLaid;
use single_layouts::lay_pairs;
use single_pairs::keep_pairs;
use tried::NotCut;
use wire::word_inside;

// What is left of a sound single substitution, with the glyph map in cells from the first on, laid into the buffer if there is room.
fn cut_singles(
    src: &[u8],
    glyphs: &[u8],
    form: usize,
    m: Map,
    t: &mut [u32],
    area: &mut [u8],
    out: &mut [u8],
) -> Result<usize, NotCut>
    requires { Sound form src.now glyphs.now × MapLaid form src.now glyphs.now m t.old }
    ensures { Tries (length t.old < enough_cells) (length area.old < limit) result out.old out.new (written out.old (cut (glyph_entries form glyphs.now) [] (single src.now))) }
{
    let cover = word_inside(src, 2);
    let notes = m.mask + 1;
    if t.len() <= notes + most(src, cover, glyphs, form) {
        return Err(NotCut::FewCells);
    }
    let n = meet(src, cover, glyphs, form, m, t, notes);
    let kept = keep_pairs(src, t, m, notes, n);
    lay_pairs(t, notes, kept, area, out)
}

// What is left of a sound single substitution under a glyph map, laid into the buffer if its layout fits and the buffer is not shorter. `t` and `area` are scratch, whatever they hold.
// The buffer is untouched where nothing is left, where there is no room, and where the scratch is too short.
pub fn singles(
    src: &[u8],
    glyphs: &[u8],
    form: usize,
    t: &mut [u32],
    area: &mut [u8],
    out: &mut [u8],
) -> Result<usize, NotCut>
    requires { Sound form src.now glyphs.now }
    ensures { Tries (length t.old < enough_cells) (length area.old < limit) result out.old out.new (written out.old (cut (glyph_entries form glyphs.now) [] (single src.now))) }
{
    if word_inside(src, 2) == 0 {
        return Err(NotCut::Refused(NotLaid::Nothing));
    }
    let m = lay_glyphs(glyphs, form, t, 0);
    if m.mask == 0 {
        return Err(NotCut::FewCells);
    }
    cut_singles(src, glyphs, form, m, t, area, out)
}
