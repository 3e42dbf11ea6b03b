// One offset of a context by coverages: what is left of the coverage that it reaches, written into the area.
#![tactic(auto)]

ghost use Rattle.std.specs.Prelude.{◌-◌};
ghost use Rattle.meaning.specs.Maps.{glyph_entries};
ghost use Rattle.cover_parts.specs.Rows.{WritesSlot, left_at, slot_left, LaysLeft};

use area::put;
use cover_parts::{Held, Places, Slot};
use cover_points::pass_over;
use kept_slots::write_left;
use known_places::again;

// What is left of the coverage that an offset reaches, as `kept_slots::write_left` writes it. One that came from the same place stands already, and kept a glyph; where the next place is past the area, nothing is noted or written.
pub fn write_slot(
    src: &[u8],
    slot: Slot,
    glyphs: &[u8],
    held: Held,
    t: &mut [u32],
    area: &mut [u8],
    places: Places,
    book: &mut [u32],
) -> usize
    requires { WritesSlot src.now slot glyphs.now held t.old area.old places book.old }
    ensures { LaysLeft (left_at (glyph_entries held.form glyphs.now) src.now) (slot_left (glyph_entries held.form glyphs.now) src.now slot.cover) held.map t.old t.new area.old slot.at places area.new result book.old book.new }
{
    if area.len() < places.pos {
        return pass_over(src, slot.cover, glyphs, held, t, places.pos);
    }
    let at = again(book, places.first, slot.cover);
    if at != 0 {
        put(area, slot.at, at);
        return places.pos;
    }
    write_left(src, slot, glyphs, held, t, area, places, book)
}
