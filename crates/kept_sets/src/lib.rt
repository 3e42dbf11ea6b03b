// Format 1 of each kind: the sets of the retained covered glyphs, written one after the other into the area, behind a place for the header and for an offset each.
#![tactic(auto)]

ghost use Rattle.std.specs.Prelude.{◌≤◌, length};
ghost use Rattle.room.specs.Laid.{enough_area};
ghost use Rattle.kept_rules.specs.Left.{maps_in};
ghost use Rattle.known_blocks.specs.Book.{packs};
ghost use Rattle.placed_sets.specs.Sorts.{Told};
ghost use Rattle.placed_sets.specs.Kept.{Roomy, Ready, WroteKept};

use area::over;
use kept_rules::Maps;
use known_blocks::begin;
use placed_sets::{Sets, Sort, Turn, header_size, place_set};
use wire::word_inside;

// Where the notes of the retained covered glyphs stand in the cells, how many there are, and the mark of the layout that is asked for.
#[derive(Clone, Copy)]
pub struct Notes {
    pub at: usize,
    pub count: usize,
    pub packing: usize,
}

// What is left of the sets that the notes name by their coverage index, written after the place for the header and an offset for each note. A note stays, and its set's place is written as its offset, if something of the set is left. `told` is as above. If there is room in `book` for the sets, then one that is equal to an earlier one is not written again.
pub fn write_kept(
    sort: Sort,
    src: &[u8],
    told: &mut [u32],
    t: &mut [u32],
    notes: Notes,
    maps: Maps,
    area: &mut [u8],
    book: &mut [u32],
) -> Sets
    requires { Ready sort src.now t.old maps notes.at notes.count × Told sort (maps_in t.old maps) src.now told.old × (length area.old ≤ enough_area) × Roomy book.old }
    ensures { WroteKept sort src.now t.old maps notes.at notes.count (packs book.old) area.old t.new area.new result }
{
    let slots = header_size(sort);
    let m = notes.count;
    let first = slots + 2 * m;
    if area.len() < first {
        return Sets {
            count: 0,
            end: over(area),
        };
    }
    begin(book);
    let mut k = 0;
    let mut p = first;
    for i in 0..m {
        let note = t[notes.at + i];
        let at = word_inside(src, slots + 2 * (note as usize / 65536));
        if at == 0 {
            continue;
        }
        let turn = Turn {
            at,
            slot: slots + 2 * k,
            first,
            pos: p,
        };
        let q = place_set(sort, src, told, t, maps, area, book, turn);
        if area.len() < q {
            return Sets { count: 0, end: q };
        }
        if q == 0 {
            continue;
        }
        t[notes.at + k] = note;
        k += 1;
        p = q;
    }
    Sets { count: k, end: p }
}
