// The table of the kept sets of format 1: the sets are written into the area, the table is put together around them, and it is handed over to the buffer.
#![tactic(auto)]

ghost use Rattle.std.specs.Prelude.{◌-◌, ◌≤◌, length, eqb};
ghost use Rattle.room.specs.Laid.{enough_area};
ghost use Rattle.kept_rules.specs.Left.{maps_in};
ghost use Rattle.placed_sets.specs.Sorts.{Told};
ghost use Rattle.placed_sets.specs.Kept.{Ready, kept_in};
ghost use Rattle.kept_header.specs.Table.{table_of};
ghost use Rattle.kept_header.specs.Answers.{Answered};

use handing::hand_over;
use kept_header::{cover_fits, finish};
use kept_rules::Maps;
use kept_sets::Notes;
use packed_sets::write_sets;
use placed_sets::{Sort, header_size};
use room::{AREA, NotLaid};
use tried::{NotCut, no_room};

// What is left of a table, whose retained covered glyphs are noted, laid into the buffer if it is not too big and the buffer is not shorter. `told` says where the fields that stay stand in a pair record; for other sorts it has marks at the places of members that are known to go.
pub fn write_table(
    sort: Sort,
    src: &[u8],
    told: &mut [u32],
    t: &mut [u32],
    notes: Notes,
    maps: Maps,
    area: &mut [u8],
    out: &mut [u8],
) -> Result<usize, NotCut>
    requires { Ready sort src.now t.old maps notes.at notes.count × (length area.old ≤ enough_area) × Told sort (maps_in t.old maps) src.now told.old }
    ensures { Answered ⊥ out.old (table_of (eqb notes.packing 1) sort (kept_in sort src.now t.old maps notes.at notes.count)) (length area.old) result out.new }
{
    let m = notes.count;
    let sets = write_sets(sort, src, told, t, notes, maps, area);
    let p = sets.end;
    let k = sets.count;
    if area.len() < p {
        return Err(no_room(area, AREA));
    }
    if k == 0 {
        return Err(NotCut::Refused(NotLaid::Nothing));
    }
    let slots = header_size(sort);
    let first = slots + 2 * m;
    let end = finish(sort, t, notes.at, k, first, p, area);
    if area.len() < end {
        return Err(no_room(area, AREA));
    }
    let head = slots + 2 * k;
    let fits = cover_fits(head, first, p);
    Ok(hand_over(area, head, first, end, fits, out)?)
}
