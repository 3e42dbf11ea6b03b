// One new class table, written into the area behind those so far, or placed as an equal one before it.
#![tactic(auto)]

ghost use Rattle.std.specs.Prelude.{◌+◌, ◌<◌};
ghost use Rattle.remade_classes.specs.Made.{table_block, TableIn};
ghost use Rattle.remade_classes.specs.Tail.{BlockAsked, PlacedTable};

use area::{over, put};
use area_parts::write_classes;
use class_spots::{Turn, place_spot};
use remade_classes::NewTable;
use room::{HIGHEST, LONGEST};

// A new class table behind those so far: its slot is noted, as that of the earlier one that is equal, if the book has one. The place after all; a null table stays null. Past the area where there is no room, or where the table's offset, its place less the gap, or its count doesn't fit a word.
pub fn write_table(
    t: &[u32],
    table: NewTable,
    area: &mut [u8],
    book: &mut [u32],
    turn: Turn,
    gap: usize,
) -> usize
    requires { TableIn t.now table × BlockAsked (table_block t.now table) turn gap area.old book.old }
    ensures { PlacedTable (table_block t.now table) turn gap area.old book.old area.new book.new result }
{
    if table.old == 0 {
        put(area, turn.slot, 0);
        return turn.pos;
    }
    let q = write_classes(t, table.list, table.len, area, turn.pos);
    if area.len() < q {
        return q;
    }
    if turn.pos + LONGEST < q {
        return over(area);
    }
    let end = place_spot(area, book, turn, q);
    if end == turn.pos {
        return end;
    }
    if HIGHEST < turn.pos - gap {
        return over(area);
    }
    end
}
