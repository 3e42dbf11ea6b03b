// One set of format 1 of a kind: written into the area and placed, as an equal one before it if the book has one.
#![tactic(auto)]

ghost use Rattle.std.specs.Prelude.{◌≡◌, ◌≤◌, length, None};
ghost use Rattle.meaning.specs.Subset.{limit};
ghost use Rattle.numbers.specs.Leaves.{Leaves};
ghost use Rattle.kept_rules.specs.Left.{AllInside, maps_in};
ghost use Rattle.placed_sets.specs.Sorts.{set_fault_of, header_size, left_in, most_of, Told};
ghost use Rattle.placed_sets.specs.Kept.{TurnInside, KeptSet, PlacedSet};

use area::{over, put};
use kept_rules::Maps;
use known_places::again;
use ligatures::write_ligatures;
use pair_sets::{Formats, write_pairs};
use repeats::settle;
use room::HIGHEST;
use rule_sets::write_rules;

// The sorts of sets: rules, plain or chained, ligatures, and pairs, which have value formats.
#[derive(Clone, Copy)]
pub enum Sort {
    Rules(bool),
    Ligatures,
    Pairs(Formats),
}

// Where a set comes from and goes to: its place in the source, that of its offset, where the first set stands, and the place after all sets so far.
#[derive(Clone, Copy)]
pub struct Turn {
    pub at: usize,
    pub slot: usize,
    pub first: usize,
    pub pos: usize,
}

// How many sets were kept, and the place after them; more than the length of the area, where there is no room.
#[derive(Clone, Copy)]
pub struct Sets {
    pub count: usize,
    pub end: usize,
}

// How many bytes stand before the offsets of the sets: the format, the coverage's offset and the count, and for pairs the two value formats.
pub fn header_size(sort: Sort) -> usize
    ensures { (result ≡ header_size sort) × (result ≤ 10) }
{
    match sort {
        Sort::Rules(_) => 6,
        Sort::Ligatures => 6,
        Sort::Pairs(_) => 10,
    }
}

// What is left of the set at `at`, from `pos` on. Ligatures and pairs go through the map of the input alone. `told` says where the fields that stay stand in a pair record; for other sorts it has marks at the places of members that are known to go.
fn write_set(
    sort: Sort,
    src: &[u8],
    at: usize,
    told: &mut [u32],
    t: &[u32],
    maps: Maps,
    area: &mut [u8],
    pos: usize,
) -> usize
    requires { (set_fault_of sort src.now at ≡ None) × (length src.now ≤ limit) × AllInside t.now maps × (pos ≤ length area.old) × Told sort (maps_in t.now maps) src.now told.old }
    ensures { Leaves area.old pos (left_in sort t.now maps src.now at) (most_of (left_in sort t.now maps src.now at) src.now) area.new result × Told sort (maps_in t.now maps) src.now told.new }
{
    match sort {
        Sort::Rules(chained) => write_rules(chained, src, at, t, maps, told, area, pos),
        Sort::Ligatures => write_ligatures(src, at, t, maps.input, told, area, pos),
        Sort::Pairs(f) => write_pairs(src, at, f.size, told, t, maps.input, area, pos),
    }
}

// The set that was written behind the others, up to `q`, gets its place, or that of an earlier one that is equal, as its offset; the place after all sets. There is no room where an offset behind it would not fit a word.
fn keep_set(area: &mut [u8], book: &mut [u32], turn: Turn, q: usize) -> usize
    requires { TurnInside area.old book.old turn × (turn.pos ≤ q) × (q ≤ length area.old) }
    ensures { KeptSet turn q area.old book.old area.new book.new result }
{
    if HIGHEST < q - turn.pos {
        return over(area);
    }
    let spot = settle(area, turn.first, turn.pos, q, turn.at, book);
    if spot.at == 0 {
        return over(area);
    }
    put(area, turn.slot, spot.at);
    spot.end
}

// What is left of one set, behind the others, with its place as its offset; the answer is as that of `write_set`. A set of the book, which came from the same place of the source, is not cut again.
pub fn place_set(
    sort: Sort,
    src: &[u8],
    told: &mut [u32],
    t: &[u32],
    maps: Maps,
    area: &mut [u8],
    book: &mut [u32],
    turn: Turn,
) -> usize
    requires { (set_fault_of sort src.now turn.at ≡ None) × (length src.now ≤ limit) × AllInside t.now maps × TurnInside area.old book.old turn × Told sort (maps_in t.now maps) src.now told.old }
    ensures { PlacedSet (left_in sort t.now maps src.now) turn area.old book.old area.new book.new result × Told sort (maps_in t.now maps) src.now told.new }
{
    let before = again(book, turn.first, turn.at);
    if before != 0 {
        put(area, turn.slot, before);
        return turn.pos;
    }
    let q = write_set(sort, src, turn.at, told, t, maps, area, turn.pos);
    if q == 0 {
        return 0;
    }
    if area.len() < q {
        return q;
    }
    keep_set(area, book, turn, q)
}
