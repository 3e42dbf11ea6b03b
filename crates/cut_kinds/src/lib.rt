// What is left of a sound source, by its kind and its format, with lent scratch.
#![tactic(auto)]

ghost use Rattle.std.specs.Prelude.{true, false, [], ◌<◌, length};
ghost use Rattle.meaning.specs.Maps.{map_entries, glyph_entries};
ghost use Rattle.meaning.specs.Tables.{context, pair_table, table};
ghost use Rattle.meaning.specs.Cut.{cut};
ghost use Rattle.meaning.specs.Subset.{written_in};
ghost use Rattle.room.specs.Laid.{enough_area};
ghost use Rattle.tried.specs.Tries.{Tries};
ghost use Rattle.cut_sizes.specs.Cutting.{SoundContext, SoundPairs, Sound, other_cells, cells_for, bytes_for};

use by_glyph::{contexts, ligatures};
use class_contexts::by_class;
use covers::by_cover;
use marks::Marks;
use pair_classes::class_pairs;
use pairs_by_glyph::pairs;
use single_subst::singles;
use tried::NotCut;
use wire::word_at;

// What is left of a sound context, plain or chained, by its format.
fn context_in(
    chained: bool,
    src: &[u8],
    glyphs: &[u8],
    marks: Marks,
    lookups: &[u8],
    t: &mut [u32],
    area: &mut [u8],
    out: &mut [u8],
) -> Result<usize, NotCut>
    requires { SoundContext chained marks.form src.now glyphs.now lookups.now }
    ensures { Tries (length t.old < other_cells) (length area.old < enough_area) result out.old out.new (written_in marks.layout out.old (cut (glyph_entries marks.form glyphs.now) (map_entries lookups.now) (context chained src.now))) }
{
    let format = word_at(src, 0);
    match format {
        1 => contexts(chained, src, glyphs, marks, lookups, t, area, out),
        2 => by_class(chained, src, glyphs, marks, lookups, t, area, out),
        _ => by_cover(chained, src, glyphs, marks, lookups, t, area, out),
    }
}

// What is left of a sound pair table, by its format.
fn pairs_in(
    src: &[u8],
    glyphs: &[u8],
    marks: Marks,
    t: &mut [u32],
    area: &mut [u8],
    out: &mut [u8],
) -> Result<usize, NotCut>
    requires { SoundPairs marks.form src.now glyphs.now }
    ensures { Tries (length t.old < cells_for 4 src.now) (length area.old < bytes_for 4 src.now) result out.old out.new (written_in marks.layout out.old (cut (glyph_entries marks.form glyphs.now) [] (pair_table src.now))) }
{
    let format = word_at(src, 0);
    match format {
        1 => pairs(src, glyphs, marks, t, area, out),
        _ => class_pairs(src, glyphs, marks, t, area, out),
    }
}

// What is left of a sound source of this kind under a glyph map and a lookup map, handed over if there is room, with lent scratch whose content is arbitrary: 1 context, 2 chained, 3 ligature, 4 pair, and single substitution for any other.
// Where the scratch is too short the buffer is untouched; with `CELLS` cells and `BYTES` bytes it never is.
pub fn cut_in(
    marks: Marks,
    src: &[u8],
    glyphs: &[u8],
    lookups: &[u8],
    t: &mut [u32],
    area: &mut [u8],
    out: &mut [u8],
) -> Result<usize, NotCut>
    requires { Sound marks.kind marks.form src.now glyphs.now lookups.now }
    ensures { Tries (length t.old < cells_for marks.kind src.now) (length area.old < bytes_for marks.kind src.now) result out.old out.new (written_in marks.layout out.old (cut (glyph_entries marks.form glyphs.now) (map_entries lookups.now) (table marks.kind src.now))) }
{
    let kind = marks.kind;
    match kind {
        1 => context_in(false, src, glyphs, marks, lookups, t, area, out),
        2 => context_in(true, src, glyphs, marks, lookups, t, area, out),
        3 => ligatures(src, glyphs, marks, t, area, out),
        4 => pairs_in(src, glyphs, marks, t, area, out),
        _ => singles(src, glyphs, marks.form, t, area, out),
    }
}
