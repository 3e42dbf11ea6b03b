// Format 2 of contexts and chained contexts, written into the area and handed over by a given book: with cells it packs the repeats, without any it does not.
#![tactic(auto)]

ghost use Rattle.std.specs.Prelude.{◌≡◌, true, ◌+◌, ◌*◌, ◌<◌, length};
ghost use Rattle.room.specs.Laid.{enough_area};
ghost use Rattle.member_sets.specs.Dead.{Dead};
ghost use Rattle.kept_rules.specs.Left.{maps_in, rule_left};
ghost use Rattle.tried.specs.Tries.{Tries};
ghost use Rattle.class_finish.specs.Written.{BookFor, Writes, left_into};

use class_finish::{Prepared, finish};
use class_places::slots_at;
use class_slots::write_slots;
use class_spots::Classes;
use handing::hand_over;
use repeats::BOOK;
use room::{AREA, NotLaid};
use tried::{NotCut, no_room};

// What is left of a context, of which the cells hold what is needed, written into the area by this book and handed over if there is room. `dead` has marks at the places of rules that are known to go.
pub fn write_booked(
    src: &[u8],
    glyphs: &[u8],
    t: &mut [u32],
    prepared: Prepared,
    dead: &mut [u32],
    area: &mut [u8],
    book: &mut [u32],
    out: &mut [u8],
) -> Result<usize, NotCut>
    requires { Writes src.now glyphs.now t.old prepared area.old × Dead (rule_left prepared.tail.chained (maps_in t.old prepared.maps) src.now) dead.old × BookFor prepared.packing book.old }
    ensures { Tries ⊥ (length area.old < enough_area) result out.old out.new (left_into out.old src.now glyphs.now t.old prepared) }
{
    let chained = prepared.tail.chained;
    let marks = prepared.marks;
    let classes = prepared.classes;
    let all = Classes {
        marks,
        count: classes,
    };
    let slots = write_slots(chained, src, t, prepared.maps, all, dead, area, book);
    if area.len() < slots.end {
        return Err(no_room(area, AREA));
    }
    if slots.count == 0 {
        return Err(NotCut::Refused(NotLaid::Nothing));
    }
    let end = finish(src, glyphs, t, prepared.tail, slots, classes, area, book);
    if area.len() < end {
        return Err(no_room(area, AREA));
    }
    let at = slots_at(chained);
    Ok(hand_over(area, at + 2 * slots.count, at + 2 * classes, end, true, out)?)
}

// The same with a book for the packed layout.
// It calls itself, so that the compiler keeps the book out of its caller's frame: a call for the plain layout would pay for it. How often it does, `rounds`, is 0 for a map of whole entries.
pub fn write_packed(
    src: &[u8],
    glyphs: &[u8],
    t: &mut [u32],
    prepared: Prepared,
    dead: &mut [u32],
    rounds: usize,
    area: &mut [u8],
    out: &mut [u8],
) -> Result<usize, NotCut>
    requires { Writes src.now glyphs.now t.old prepared area.old × Dead (rule_left prepared.tail.chained (maps_in t.old prepared.maps) src.now) dead.old × (prepared.packing ≡ 1) }
    ensures { Tries ⊥ (length area.old < enough_area) result out.old out.new (left_into out.old src.now glyphs.now t.old prepared) }
{
    if rounds != 0 {
        return write_packed(src, glyphs, t, prepared, dead, rounds - 1, area, out);
    }
    let mut book = [0u32; BOOK];
    write_booked(src, glyphs, t, prepared, dead, area, &mut book, out)
}
