// One set of format 2 of contexts: found by its class, written into the area and placed, as an equal one before it if the book has one.
#![tactic(auto)]

ghost use Rattle.std.specs.Prelude.{◌≡◌, ◌+◌, ◌*◌, ◌≤◌, ◌<◌, length};
ghost use Rattle.meaning.specs.Subset.{limit};
ghost use Rattle.numbers.specs.Leaves.{Leaves};
ghost use Rattle.member_sets.specs.Dead.{Dead};
ghost use Rattle.kept_rules.specs.Left.{AllInside, maps_in, rule_left};
ghost use Rattle.class_spots.specs.Sets.{set_place, set_left, set_most, SetSound, Asked};
ghost use Rattle.class_spots.specs.Placing.{SpotAsked, PlacedSpot};

use area::{over, put};
use bits::has_bit;
use kept_rules::Maps;
use repeats::settle;
use rule_sets::write_rules;
use wire::word_inside;

// How many slots there are up to the last that is not null, and the place after the sets; more than the length of the area, where there is no room.
#[derive(Clone, Copy)]
pub struct Slots {
    pub count: usize,
    pub end: usize,
}

// The surviving classes: where the marks of those that covered glyphs hold begin, one bit each, and how many classes there are.
#[derive(Clone, Copy)]
pub struct Classes {
    pub marks: usize,
    pub count: usize,
}

// Where a block comes from and goes to, a set or a class table: its place in the source, which is 0 if there is none, its slot, where the first block of its kind stands, and the place after all so far.
#[derive(Clone, Copy)]
pub struct Turn {
    pub at: usize,
    pub slot: usize,
    pub first: usize,
    pub pos: usize,
}

// The place of the set of a class; 0 if it has none, or if no retained covered glyph holds the class, which its bit in the cells from `marks` on tells.
pub fn set_place(src: &[u8], slots: usize, t: &[u32], marks: usize, class: usize) -> usize
    requires { Asked src.now slots marks class }
    ensures { (result ≡ set_place src.now slots t.now marks class) × (result < 65536) }
{
    if word_inside(src, slots - 2) <= class {
        return 0;
    }
    if !has_bit(t, marks, class) {
        return 0;
    }
    word_inside(src, slots + 2 * class)
}

// What is left of the set at `at`, from `pos` on; nothing where there is none, at 0. `dead` has marks at the places of rules that are known to go.
pub fn write_set(
    chained: bool,
    src: &[u8],
    at: usize,
    t: &[u32],
    maps: Maps,
    dead: &mut [u32],
    area: &mut [u8],
    pos: usize,
) -> usize
    requires { SetSound chained src.now at × (length src.now ≤ limit) × AllInside t.now maps × (pos ≤ length area.old) × Dead (rule_left chained (maps_in t.now maps) src.now) dead.old }
    ensures { Leaves area.old pos (set_left chained (maps_in t.now maps) src.now at) (set_most (set_left chained (maps_in t.now maps) src.now at) src.now) area.new result × Dead (rule_left chained (maps_in t.now maps) src.now) dead.new }
{
    if at == 0 {
        return 0;
    }
    write_rules(chained, src, at, t, maps, dead, area, pos)
}

// The block that was written at the turn's place, up to `q`: its slot is noted, by the earlier block that is equal, if the book has one. The place after all blocks; past the area where it starts too far behind the first.
pub fn place_spot(area: &mut [u8], book: &mut [u32], turn: Turn, q: usize) -> usize
    requires { SpotAsked turn q area.old book.old }
    ensures { PlacedSpot turn q area.old book.old area.new book.new result }
{
    let spot = settle(area, turn.first, turn.pos, q, turn.at, book);
    if spot.at == 0 {
        return over(area);
    }
    put(area, turn.slot, (spot.at - turn.first) / 2 + 1);
    spot.end
}
