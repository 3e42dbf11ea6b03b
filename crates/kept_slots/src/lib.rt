// One offset of a context by coverages whose coverage is not written yet: what is left of it, written into the area.
#![tactic(auto)]

ghost use Rattle.std.specs.Prelude.{◌-◌, ◌≤◌, length};
ghost use Rattle.meaning.specs.Maps.{glyph_entries};
ghost use Rattle.cover_parts.specs.Rows.{WritesSlot, left_at, slot_left, LaysLeft};

use area_parts::write_cover;
use cover_parts::{Held, Places, Slot};
use cover_points::point;
use meet_runs::meet;

// What is left of the coverage that an offset reaches, which no coverage of the book came from: its offset at its place, and itself at the next place, unless an equal one stands already; the place after all, and 0 if no glyph is retained. Past the area if it has no room for the coverage, or no offset can say where it stands.
pub fn write_left(
    src: &[u8],
    slot: Slot,
    glyphs: &[u8],
    held: Held,
    t: &mut [u32],
    area: &mut [u8],
    places: Places,
    book: &mut [u32],
) -> usize
    requires { WritesSlot src.now slot glyphs.now held t.old area.old places book.old × (places.pos ≤ length area.old) }
    ensures { LaysLeft (left_at (glyph_entries held.form glyphs.now) src.now) (slot_left (glyph_entries held.form glyphs.now) src.now slot.cover) held.map t.old t.new area.old slot.at places area.new result book.old book.new }
{
    let notes = held.map.at + held.map.mask + 1;
    let k = meet(src, slot.cover, glyphs, held.form, held.map, t, notes);
    if k == 0 {
        return 0;
    }
    let q = write_cover(t, notes, k, area, places.pos);
    if area.len() < q {
        return q;
    }
    point(area, slot, places, q, book)
}
