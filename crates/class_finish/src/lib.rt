// Format 2 of contexts and chained contexts: the table is put together around its sets.
#![tactic(auto)]

ghost use Rattle.std.specs.Prelude.{◌≡◌, true, ◌+◌, ◌*◌, ◌≤◌, ◌<◌, length};
ghost use Rattle.known_blocks.specs.Book.{book_cells, packs};
ghost use Rattle.remade_classes.specs.Tail.{cover_of, table_blocks};
ghost use Rattle.class_finish.specs.Table.{Finishes, Finished};

use area::put;
use class_places::slots_at;
use class_slots::settle_slots;
use class_spots::Slots;
use class_tail::write_tail;
use kept_rules::Maps;
use remade_classes::Tail;

// What the cells hold for the cut: the maps of the rules, the marks of the classes that covered glyphs hold, by where they begin, the number of surviving classes, and what follows the sets. And the mark of the layout that is asked for.
#[derive(Clone, Copy)]
pub struct Prepared {
    pub maps: Maps,
    pub marks: usize,
    pub classes: usize,
    pub tail: Tail,
    pub packing: usize,
}

// The table of the slots that are left, whose sets stand behind a place for a slot of each of the `classes`: the slots as offsets without the gap, what follows the sets, and the header; the place after it.
pub fn finish(
    src: &[u8],
    glyphs: &[u8],
    t: &mut [u32],
    tail: Tail,
    slots: Slots,
    classes: usize,
    area: &mut [u8],
    book: &mut [u32],
) -> usize
    requires { Finishes src.now glyphs.now t.old tail slots classes area.old × (packs book.old ≡ true → book_cells ≤ length book.old) }
    ensures { Finished (packs book.old) tail.chained (cover_of t.old tail) (table_blocks tail.chained src.now glyphs.now tail) slots classes area.old area.new result }
{
    let at = slots_at(tail.chained);
    let count = slots.count;
    settle_slots(area, at, count, at + 2 * count);
    put(area, 0, 2);
    let gap = 2 * (classes - count);
    let end = write_tail(src, glyphs, t, tail, area, book, gap, slots.end);
    put(area, at - 2, count);
    end
}
