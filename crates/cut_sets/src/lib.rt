// Tables of sets by covered glyph, for sets that have no value formats: the retained covered glyphs are noted in cells, and what is left of the table is written.
#![tactic(auto)]

ghost use Rattle.std.specs.Prelude.{◌≡◌, false, ◌+◌, ◌≤◌, ◌<◌, length, eqb};
ghost use Rattle.meaning.specs.Words.{word};
ghost use Rattle.meaning.specs.Maps.{glyph_entries};
ghost use Rattle.room.specs.Laid.{enough_area};
ghost use Rattle.placed_sets.specs.Sorts.{is_pairs};
ghost use Rattle.placed_sets.specs.Kept.{Ready, kept_in};
ghost use Rattle.kept_header.specs.Table.{table_of};
ghost use Rattle.kept_header.specs.Answers.{Answered};
ghost use Rattle.cut_sets.specs.Asked.{SoundSets, behind, MapsLaid, kept_from};

use kept_rules::Maps;
use kept_sets::Notes;
use kept_table::write_table;
use marks::Marks;
use meet_runs::meet;
use meets::most;
use member_sets::crowded;
use placed_sets::Sort;
use places::MEMBER_MARKS;
use tried::NotCut;
use wire::word_inside;

// What is left of a table whose sets share members and whose retained covered glyphs are noted, for sets that have no value formats. It is remembered which members go, so that each of these is walked once.
// It calls itself, so that the compiler keeps its large array out of its caller's frame: the small job would pay for it, and docs/SPEED.md says how much. How often it does, `rounds`, is 0 for a map of whole entries.
fn write_shared(
    sort: Sort,
    src: &[u8],
    t: &mut [u32],
    notes: Notes,
    maps: Maps,
    rounds: usize,
    area: &mut [u8],
    out: &mut [u8],
) -> Result<usize, NotCut>
    requires { Ready sort src.now t.old maps notes.at notes.count × (length area.old ≤ enough_area) × (is_pairs sort ≡ false) }
    ensures { Answered ⊥ out.old (table_of (eqb notes.packing 1) sort (kept_in sort src.now t.old maps notes.at notes.count)) (length area.old) result out.new }
{
    if rounds != 0 {
        return write_shared(sort, src, t, notes, maps, rounds - 1, area, out);
    }
    let mut dead = [0u32; MEMBER_MARKS];
    write_table(sort, src, &mut dead, t, notes, maps, area, out)
}

// What is left of a table under a glyph map, for sets that have no value formats: the retained covered glyphs are noted behind the cells of the maps, and the table is written.
pub fn cut_sets(
    sort: Sort,
    src: &[u8],
    glyphs: &[u8],
    marks: Marks,
    maps: Maps,
    t: &mut [u32],
    area: &mut [u8],
    out: &mut [u8],
) -> Result<usize, NotCut>
    requires { SoundSets sort src.now × MapsLaid marks.form glyphs.now t.old maps × (length area.old ≤ enough_area) × (word src.now 2 ≡ 0 → ⊥) × (is_pairs sort ≡ false) }
    ensures { Answered (length t.old ≤ behind maps + 65536) out.old (table_of (eqb marks.layout 1) sort (kept_from sort src.now (glyph_entries marks.form glyphs.now) t.old maps)) (length area.old) result out.new }
{
    let cover = word_inside(src, 2);
    let notes = maps.lookups.at + maps.lookups.mask + 1;
    if t.len() <= notes + most(src, cover, glyphs, marks.form) {
        return Err(NotCut::FewCells);
    }
    let m = meet(src, cover, glyphs, marks.form, maps.input, t, notes);
    let found = Notes {
        at: notes,
        count: m,
        packing: marks.layout,
    };
    if crowded(src, 6, word_inside(src, 4)) {
        return write_shared(
            sort,
            src,
            t,
            found,
            maps,
            glyphs.len() % marks.form,
            area,
            out,
        );
    }
    let mut no_marks = [0u32; 1];
    write_table(sort, src, &mut no_marks, t, found, maps, area, out)
}
