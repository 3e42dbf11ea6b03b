// Format 2 of contexts: the sets of the surviving classes, written one after the other into the area, behind a place for the header and for a slot each.
#![tactic(auto)]

ghost use Rattle.std.specs.Prelude.{◌≡◌, true, map, ◌+◌, ◌*◌, ◌≤◌, ◌<◌, length};
ghost use Rattle.std.proofs.lemmas.List.Edits.{sets};
ghost use Rattle.meaning.specs.Words.{words, flat};
ghost use Rattle.member_sets.specs.Dead.{Dead};
ghost use Rattle.kept_rules.specs.Left.{maps_in, rule_left};
ghost use Rattle.known_blocks.specs.Book.{book_cells, packs};
ghost use Rattle.class_spots.specs.Slots.{settled, Ready, WroteSlots};
ghost use Rattle.class_spots.specs.Placing.{SetAsked, PlacedSet};

use area::{over, put};
use class_maps::top;
use class_places::slots_at;
use class_spots::{Classes, Slots, Turn, place_spot, set_place, write_set};
use fold::find;
use kept_rules::Maps;
use known_blocks::begin;
use known_places::again;
use room::HIGHEST;
use wire::word_inside;

// What is left of the set at the turn's place of the source, behind the sets so far, and its slot: one more than half its distance from the first set, and 0 if nothing is left. It is not written if the book has a set from there.
// The place after all sets; 0 where nothing is left; past the area where there is no room, or where the set is too long or starts too far behind the first.
fn place_set(
    chained: bool,
    src: &[u8],
    t: &[u32],
    maps: Maps,
    dead: &mut [u32],
    area: &mut [u8],
    book: &mut [u32],
    turn: Turn,
) -> usize
    requires { SetAsked chained src.now t.now maps turn area.old book.old × Dead (rule_left chained (maps_in t.now maps) src.now) dead.old }
    ensures { PlacedSet chained src.now t.now maps turn area.old book.old area.new book.new result × Dead (rule_left chained (maps_in t.now maps) src.now) dead.new }
{
    let before = again(book, turn.first, turn.at);
    if before != 0 {
        put(area, turn.slot, (before - turn.first) / 2 + 1);
        return turn.pos;
    }
    let q = write_set(chained, src, turn.at, t, maps, dead, area, turn.pos);
    if q == 0 {
        put(area, turn.slot, 0);
        return 0;
    }
    if area.len() < q {
        return q;
    }
    if HIGHEST < q - turn.pos {
        return over(area);
    }
    place_spot(area, book, turn, q)
}

// What is left of the sets of the surviving classes, which are those of the input's map, written after the place for the header and a slot for each class; none twice, if the book is for packed sets.
// A slot is noted as one more than half its set's distance from the first set, and as 0 if it is null: so far it is not known where the sets will stand.
// `dead` has marks at the places of rules that are known to go.
pub fn write_slots(
    chained: bool,
    src: &[u8],
    t: &[u32],
    maps: Maps,
    classes: Classes,
    dead: &mut [u32],
    area: &mut [u8],
    book: &mut [u32],
) -> Slots
    requires { Ready chained src.now t.now maps classes × (length area.old ≤ 0x1_0000_0000) × Dead (rule_left chained (maps_in t.now maps) src.now) dead.old × (packs book.old ≡ true → book_cells ≤ length book.old) }
    ensures { WroteSlots (packs book.old) chained src.now t.now maps classes.marks area.old area.new result × Dead (rule_left chained (maps_in t.now maps) src.now) dead.new }
{
    let slots = slots_at(chained);
    let first = slots + 2 * classes.count;
    if area.len() < first {
        return Slots {
            count: 0,
            end: over(area),
        };
    }
    begin(book);
    let last = top(maps.input);
    let mut count = 0;
    let mut k = 0;
    let mut p = first;
    for class in 0..last + 1 {
        let Some(_) = find(t, maps.input, class) else {
            continue;
        };
        let turn = Turn {
            at: set_place(src, slots, t, classes.marks, class),
            slot: slots + 2 * k,
            first,
            pos: p,
        };
        k += 1;
        let q = place_set(chained, src, t, maps, dead, area, book, turn);
        if area.len() < q {
            return Slots { count: 0, end: q };
        }
        if q == 0 {
            continue;
        }
        count = k;
        p = q;
    }
    Slots { count, end: p }
}

// The offset of a noted slot, where the first set stands at `p`; a null one stays null.
fn offset_of(w: usize, p: usize) -> usize
    requires { (w < 65536) × (p < 0x1_0000_0000) }
    ensures { result ≡ settled p w }
{
    if w == 0 {
        return 0;
    }
    p + 2 * (w - 1)
}

// Each of the `n` noted slots from `at` on as its offset, where the first set stands at `p`.
pub fn settle_slots(area: &mut [u8], at: usize, n: usize, p: usize)
    requires { (at + 2 * n ≤ length area.old) × (p < 0x1_0000_0000) }
    ensures { area.new ≡ sets area.old at (flat (map (settled p) (words area.old at n))) }
{
    for i in 0..n {
        let slot = at + 2 * i;
        let w = word_inside(area, slot);
        let offset = offset_of(w, p);
        put(area, slot, offset);
    }
}
