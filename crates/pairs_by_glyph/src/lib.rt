// Format 1 of pairs, cut in one walk: as `by_glyph` does it, with the value formats that are left.
#![tactic(auto)]

ghost use Rattle.std.specs.Prelude.{◌≡◌, [], ◌+◌, ◌≤◌, ◌<◌, length, None};
ghost use Rattle.meaning.specs.Words.{word};
ghost use Rattle.meaning.specs.Maps.{glyph_entries};
ghost use Rattle.meaning.specs.Cut.{cut};
ghost use Rattle.meaning.specs.Layout.{block};
ghost use Rattle.meaning.specs.Subset.{limit, words_in, written_in};
ghost use Rattle.room.specs.Laid.{enough_area};
ghost use Rattle.glyph_runs.specs.Runs.{GlyphMap};
ghost use Rattle.placed_sets.specs.Kept.{Ready};
ghost use Rattle.tried.specs.Tries.{Tries};
ghost use Rattle.kept_header.specs.Answers.{Answered};
ghost use Rattle.cut_sets.specs.Asked.{SoundSets, behind, MapsLaid};
ghost use Rattle.cut_sets.specs.PairTables.{pair_sort, one_map, pair_fault, pair_table, AnsweredPairs};
ghost use Rattle.cut_sets.specs.Whole.{cells_most};

use cell_maps::Map;
use fold_glyphs::lay_glyphs;
use kept_rules::Maps;
use kept_sets::Notes;
use kept_table::write_table;
use marks::Marks;
use meet_runs::meet;
use meets::most;
use pair_formats::new_formats;
use pair_places::kept_places;
use placed_sets::Sort;
use room::{AREA, NotLaid};
use tried::NotCut;
use wire::word_inside;

// What is left of a table of pairs, whose retained covered glyphs are noted: its new value formats, and then the table with the fields that stay.
fn write_pair_table(
    src: &[u8],
    g: Map,
    t: &mut [u32],
    notes: Notes,
    area: &mut [u8],
    out: &mut [u8],
) -> Result<usize, NotCut>
    requires { Ready (pair_sort src.now) src.now t.old (one_map g) notes.at notes.count × (length area.old ≤ enough_area) }
    ensures { AnsweredPairs notes.packing src.now t.old g notes.at notes.count out.old (length area.old) result out.new }
{
    let f = new_formats(src, t, notes.at, notes.count, g);
    let mut places = [0u32; 8];
    let k = kept_places(f.f1, f.f2, f.n1, f.n2, &mut places);
    let maps = Maps {
        back: g,
        input: g,
        ahead: g,
        lookups: g,
    };
    write_table(
        Sort::Pairs(f),
        src,
        &mut places[..k],
        t,
        notes,
        maps,
        area,
        out,
    )
}

// The same from the glyph map on: the retained covered glyphs are noted behind its cells.
fn cut_pair_sets(
    src: &[u8],
    glyphs: &[u8],
    marks: Marks,
    g: Map,
    t: &mut [u32],
    area: &mut [u8],
    out: &mut [u8],
) -> Result<usize, NotCut>
    requires { SoundSets (pair_sort src.now) src.now × MapsLaid marks.form glyphs.now t.old (one_map g) × (length area.old ≤ enough_area) × (word src.now 2 ≡ 0 → ⊥) }
    ensures { Answered (length t.old ≤ behind (one_map g) + 65536) out.old (block (words_in marks.layout) (cut (glyph_entries marks.form glyphs.now) [] (pair_table src.now))) (length area.old) result out.new }
{
    let cover = word_inside(src, 2);
    let notes = g.at + g.mask + 1;
    if t.len() <= notes + most(src, cover, glyphs, marks.form) {
        return Err(NotCut::FewCells);
    }
    let m = meet(src, cover, glyphs, marks.form, g, t, notes);
    let found = Notes {
        at: notes,
        count: m,
        packing: marks.layout,
    };
    write_pair_table(src, g, t, found, area, out)
}

// The same from the source and the map's list on.
fn cut_pairs(
    src: &[u8],
    glyphs: &[u8],
    marks: Marks,
    t: &mut [u32],
    area: &mut [u8],
    out: &mut [u8],
) -> Result<usize, NotCut>
    requires { (pair_fault src.now ≡ None) × (length src.now ≤ limit) × GlyphMap marks.form glyphs.now × (length area.old ≤ enough_area) }
    ensures { Tries (length t.old < cells_most) (length area.old < enough_area) result out.old out.new (written_in marks.layout out.old (cut (glyph_entries marks.form glyphs.now) [] (pair_table src.now))) }
{
    if word_inside(src, 2) == 0 {
        return Err(NotCut::Refused(NotLaid::Nothing));
    }
    let g = lay_glyphs(glyphs, marks.form, t, 0);
    if g.mask == 0 {
        return Err(NotCut::FewCells);
    }
    cut_pair_sets(src, glyphs, marks, g, t, area, out)
}

// What is left of a sound table of pairs by glyph under a glyph map, laid into the buffer if it is not too big and the buffer is not shorter. `t` and `area` are scratch, whatever they hold.
// The buffer is untouched where nothing is left, where there is no room, and where the scratch is too short.
pub fn pairs(
    src: &[u8],
    glyphs: &[u8],
    marks: Marks,
    t: &mut [u32],
    area: &mut [u8],
    out: &mut [u8],
) -> Result<usize, NotCut>
    requires { (pair_fault src.now ≡ None) × (length src.now ≤ limit) × GlyphMap marks.form glyphs.now }
    ensures { Tries (length t.old < cells_most) (length area.old < enough_area) result out.old out.new (written_in marks.layout out.old (cut (glyph_entries marks.form glyphs.now) [] (pair_table src.now))) }
{
    let bytes = area.len().min(AREA);
    cut_pairs(src, glyphs, marks, t, &mut area[..bytes], out)
}
