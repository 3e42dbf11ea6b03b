// The sets of a table of format 1: what is left of them, written into the area in the layout that is asked for.
#![tactic(auto)]

ghost use Rattle.std.specs.Prelude.{true, ◌-◌, ◌≤◌, length, eqb};
ghost use Rattle.room.specs.Laid.{enough_area};
ghost use Rattle.kept_rules.specs.Left.{maps_in};
ghost use Rattle.placed_sets.specs.Sorts.{Told};
ghost use Rattle.placed_sets.specs.Kept.{Ready, WroteKept};

use kept_rules::Maps;
use kept_sets::{Notes, write_kept};
use placed_sets::{Sets, Sort};
use repeats::BOOK;

// What is left of the noted sets, none written twice, with a book of them.
// It calls itself, so that the compiler keeps the book out of its caller's frame: a call for the plain layout would pay for it. How often it does, `rounds`, is 0 for fewer notes than there are glyphs.
fn write_packed(
    sort: Sort,
    src: &[u8],
    told: &mut [u32],
    t: &mut [u32],
    notes: Notes,
    maps: Maps,
    rounds: usize,
    area: &mut [u8],
) -> Sets
    requires { Ready sort src.now t.old maps notes.at notes.count × (length area.old ≤ enough_area) × Told sort (maps_in t.old maps) src.now told.old }
    ensures { WroteKept sort src.now t.old maps notes.at notes.count true area.old t.new area.new result }
{
    if rounds != 0 {
        return write_packed(sort, src, told, t, notes, maps, rounds - 1, area);
    }
    let mut book = [0u32; BOOK];
    write_kept(sort, src, told, t, notes, maps, area, &mut book)
}

// What is left of the sets of a table, in the layout that is asked for: where it is the packed one, there is a book of them.
pub fn write_sets(
    sort: Sort,
    src: &[u8],
    told: &mut [u32],
    t: &mut [u32],
    notes: Notes,
    maps: Maps,
    area: &mut [u8],
) -> Sets
    requires { Ready sort src.now t.old maps notes.at notes.count × (length area.old ≤ enough_area) × Told sort (maps_in t.old maps) src.now told.old }
    ensures { WroteKept sort src.now t.old maps notes.at notes.count (eqb notes.packing 1) area.old t.new area.new result }
{
    if notes.packing == 1 {
        return write_packed(sort, src, told, t, notes, maps, notes.count / 65536, area);
    }
    let mut no_book = [0u32; 1];
    write_kept(sort, src, told, t, notes, maps, area, &mut no_book)
}
