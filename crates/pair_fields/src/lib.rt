// The values of pair records: which fields hold one that is not 0 in some surviving pair.
#![tactic(auto)]

ghost use Rattle.std.specs.Prelude.{◌≡◌, ◌&&◌, not, ◌+◌, ◌*◌, ◌<◌, ◌≤◌, length, eqb};
ghost use Rattle.meaning.specs.Words.{word, find, is_some};
ghost use Rattle.cell_maps.specs.Cells.{Inside};
ghost use Rattle.numbers.specs.Entries.{entries_in};
ghost use Rattle.pair_fields.specs.Pairs.{value_at, field_used};

use cell_maps::Map;
use fold::find;
use wire::word_inside;

// The value that stands `place` bytes into the pair record at `p`; the place 0 is that of a field that the record has not, which reads as 0.
pub fn value_at(src: &[u8], p: usize, place: usize) -> usize
    requires { p + place + 2 ≤ length src.now }
    ensures { result ≡ value_at src.now p place }
{
    if place == 0 {
        return 0;
    }
    word_inside(src, p + place)
}

// Whether the pair at `p` survives and has a value at `place` that is not 0.
fn speaks(src: &[u8], p: usize, place: usize, t: &[u32], glyphs: Map) -> bool
    requires { (p + place + 2 ≤ length src.now) × Inside t.now glyphs }
    ensures { result ≡ not (eqb (value_at src.now p place) 0) && is_some (find (entries_in t.now glyphs) (word src.now p)) }
{
    let value = value_at(src, p, place);
    if value == 0 {
        return false;
    }
    find(t, glyphs, word_inside(src, p)).is_some()
}

// Whether some surviving pair of the set at `at`, whose records are `size` bytes long, has a value at `place` that is not 0.
pub fn field_used(src: &[u8], at: usize, size: usize, place: usize, t: &[u32], glyphs: Map) -> bool
    requires { (at + 2 + size * word src.now at ≤ length src.now) × (place + 2 ≤ size) × Inside t.now glyphs }
    ensures { result ≡ field_used (entries_in t.now glyphs) src.now size place (at + 2) (word src.now at) }
{
    let n = word_inside(src, at);
    for i in 0..n {
        if speaks(src, at + 2 + size * i, place, t, glyphs) {
            return true;
        }
    }
    false
}
