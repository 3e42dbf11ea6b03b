// The new value formats of class kerning: a field stays if some kept cell has it nonzero.
// A cell is a pair record without its second glyph. So the places of its fields are counted from two bytes before it, as in a pair record: `p` is that place.
#![tactic(auto)]

ghost use Rattle.std.specs.Prelude.{◌≡◌, ◌&&◌, not, ◌+◌, ◌*◌, ◌≤◌, length, eqb};
ghost use Rattle.meaning.specs.Words.{word, find, is_some};
ghost use Rattle.meaning.specs.Tables.{field_count};
ghost use Rattle.meaning.specs.Cut.{keep_if};
ghost use Rattle.cell_maps.specs.Cells.{Inside};
ghost use Rattle.numbers.specs.Entries.{entries_in};
ghost use Rattle.pair_fields.specs.Pairs.{value_at};
ghost use Rattle.class_formats.specs.Cells.{row_uses, cells_use, format_in, HasRow, HasCells};
ghost use Rattle.class_formats.specs.Kept.{AsksCells, NewFormats};

use cell_maps::Map;
use fold::find;
use pair_fields::value_at;
use pair_formats::stand_in;
use pair_places::{field_count, field_place};
use pair_sets::Formats;
use wire::word_inside;

// Whether the second class `c` is kept and its cell has a value at `place` that is not 0.
fn speaks(src: &[u8], p: usize, place: usize, t: &[u32], seconds: Map, c: usize) -> bool
    requires { (p + place + 2 ≤ length src.now) × Inside t.now seconds }
    ensures { result ≡ not (eqb (value_at src.now p place) 0) && is_some (find (entries_in t.now seconds) c) }
{
    let value = value_at(src, p, place);
    if value == 0 {
        return false;
    }
    find(t, seconds, c).is_some()
}

// Whether some kept cell of the row at `p`, whose cells are `size` bytes long, has a value at `place` that is not 0.
fn row_uses(src: &[u8], p: usize, size: usize, place: usize, t: &[u32], seconds: Map) -> bool
    requires { HasRow src.now size p × (place ≤ size) × Inside t.now seconds }
    ensures { result ≡ row_uses (entries_in t.now seconds) src.now size place 0 p (word src.now 14) }
{
    let n = word_inside(src, 14);
    let mut cell = p;
    'cells: for c in 0..n {
        if speaks(src, cell, place, t, seconds, c) {
            return true;
        }
        cell += size;
    }
    false
}

// The same if the row's first class `c` is kept; else its cells are passed over.
fn kept_row_uses(
    src: &[u8],
    p: usize,
    size: usize,
    place: usize,
    t: &[u32],
    firsts: Map,
    seconds: Map,
    c: usize,
) -> bool
    requires { HasRow src.now size p × (place ≤ size) × Inside t.now firsts × Inside t.now seconds }
    ensures { result ≡ is_some (find (entries_in t.now firsts) c) && row_uses (entries_in t.now seconds) src.now size place 0 p (word src.now 14) }
{
    find(t, firsts, c).is_some() && row_uses(src, p, size, place, t, seconds)
}

// Whether some kept cell of all rows has a value at `place` that is not 0. At the place 0 there is no field.
fn uses(src: &[u8], size: usize, place: usize, t: &[u32], firsts: Map, seconds: Map) -> bool
    requires { HasCells src.now size × (place ≤ size) × Inside t.now firsts × Inside t.now seconds }
    ensures { result ≡ cells_use (entries_in t.now firsts) (entries_in t.now seconds) src.now size place }
{
    if place == 0 {
        return false;
    }
    let n = word_inside(src, 12);
    let row = size * word_inside(src, 14);
    let mut p = 14;
    'rows: for c in 0..n {
        if kept_row_uses(src, p, size, place, t, firsts, seconds, c) {
            return true;
        }
        p += row;
    }
    false
}

// What the field `k`, which stands at `place`, adds to the new format: its bit, if it is used.
fn bit_kept(
    src: &[u8],
    size: usize,
    place: usize,
    k: usize,
    t: &[u32],
    firsts: Map,
    seconds: Map,
) -> usize
    requires { HasCells src.now size × (place ≤ size) × Inside t.now firsts × Inside t.now seconds }
    ensures { (result ≡ keep_if (cells_use (entries_in t.now firsts) (entries_in t.now seconds) src.now size place) k) × (result ≤ k) }
{
    if uses(src, size, place, t, firsts, seconds) {
        return k;
    }
    0
}

// The format with just the fields that are used, of the format `f`, whose value record starts at `start`.
fn new_format(
    src: &[u8],
    size: usize,
    start: usize,
    f: usize,
    t: &[u32],
    firsts: Map,
    seconds: Map,
) -> usize
    requires { HasCells src.now size × (start ≤ 18) × (start + 2 * field_count f ≤ size + 2) × Inside t.now firsts × Inside t.now seconds }
    ensures { result ≡ format_in (entries_in t.now firsts) (entries_in t.now seconds) src.now size start f }
{
    let a = bit_kept(src, size, field_place(start, f, 1), 1, t, firsts, seconds);
    let b = bit_kept(src, size, field_place(start, f, 2), 2, t, firsts, seconds);
    let c = bit_kept(src, size, field_place(start, f, 4), 4, t, firsts, seconds);
    let d = bit_kept(src, size, field_place(start, f, 8), 8, t, firsts, seconds);
    a + b + c + d
}

// The value formats of the source, and the new ones that the cells ask for whose first and second class are kept; the second one is not 0 if the source's is not.
pub fn new_formats(src: &[u8], t: &[u32], firsts: Map, seconds: Map) -> Formats
    requires { AsksCells src.now t.now firsts seconds }
    ensures { NewFormats (entries_in t.now firsts) (entries_in t.now seconds) src.now result }
{
    let f1 = word_inside(src, 4);
    let f2 = word_inside(src, 6);
    let second = 2 * field_count(f1);
    let size = second + 2 * field_count(f2);
    let n1 = new_format(src, size, 2, f1, t, firsts, seconds);
    let n2 = stand_in(
        f2,
        new_format(src, size, second + 2, f2, t, firsts, seconds),
    );
    Formats {
        f1,
        f2,
        n1,
        n2,
        size,
    }
}
