// The offset of a coverage that was written into the area, and what is noted where nothing of it is left.
#![tactic(auto)]

ghost use Rattle.std.specs.Prelude.{◌-◌};
ghost use Rattle.meaning.specs.Maps.{glyph_entries};
ghost use Rattle.cover_parts.specs.Rows.{Passes, Placing, Points, slot_left};
ghost use Rattle.meets.specs.Either.{SeeksGlyphs};

use area::{over, put};
use cover_parts::{Held, Places, Slot};
use meets::meets;
use repeats::settle;
use room::HIGHEST;

// The place `p`, and 0 if no glyph of the coverage at `cover` is retained.
pub fn pass_over(src: &[u8], cover: usize, glyphs: &[u8], held: Held, t: &[u32], p: usize) -> usize
    requires { SeeksGlyphs held.form src.now cover glyphs.now held.map t.now }
    ensures { Passes (slot_left (glyph_entries held.form glyphs.now) src.now cover) p result }
{
    if meets(src, cover, glyphs, held.form, held.map, t) {
        return p;
    }
    0
}

// The offset of the coverage that was written from the next place on, up to `q`; the place after all coverages. Past the area if no offset can say where it stands.
pub fn point(area: &mut [u8], slot: Slot, places: Places, q: usize, book: &mut [u32]) -> usize
    requires { Placing area.old slot places q book.old }
    ensures { Points area.old slot places q area.new result book.old book.new }
{
    let spot = settle(area, places.first, places.pos, q, slot.cover, book);
    if spot.at == 0 {
        return over(area);
    }
    if HIGHEST < spot.at {
        return over(area);
    }
    put(area, slot.at, spot.at);
    spot.end
}
