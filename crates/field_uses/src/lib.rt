// The fields of a pair record that stay: those that some surviving pair of the sets that notes name has nonzero.
#![tactic(auto)]

ghost use Rattle.std.specs.Prelude.{◌≡◌, ◌+◌, ◌*◌, ◌<◌, ◌≤◌, length};
ghost use Rattle.meaning.specs.Words.{word};
ghost use Rattle.meaning.specs.Tables.{field_count};
ghost use Rattle.meaning.specs.Cut.{keep_if};
ghost use Rattle.cell_maps.specs.Cells.{Inside};
ghost use Rattle.area.specs.Part.{notes};
ghost use Rattle.numbers.specs.Entries.{entries_in};
ghost use Rattle.field_uses.specs.Used.{set_uses, used_in, NamesSets};
ghost use Rattle.field_uses.specs.New.{format_in};

use cell_maps::Map;
use pair_fields::field_used;
use pair_places::field_place;
use wire::word_inside;

// Whether some surviving pair of the set at `at`, whose records are `size` bytes long, has a value at `place` that is not 0; a null offset reaches no set.
fn set_uses(src: &[u8], at: usize, size: usize, place: usize, t: &[u32], glyphs: Map) -> bool
    requires { ((at ≡ 0 → ⊥) → at + 2 + size * word src.now at ≤ length src.now) × (place + 2 ≤ size) × Inside t.now glyphs }
    ensures { result ≡ set_uses (entries_in t.now glyphs) src.now size place at }
{
    if at == 0 {
        return false;
    }
    field_used(src, at, size, place, t, glyphs)
}

// The same of the sets that the `n` notes from `at` on name by their coverage index. At the place 0 there is no field.
fn uses(src: &[u8], size: usize, place: usize, t: &[u32], at: usize, n: usize, glyphs: Map) -> bool
    requires { NamesSets src.now t.now at n size × (place + 2 ≤ size) × Inside t.now glyphs }
    ensures { result ≡ used_in (entries_in t.now glyphs) src.now size place (notes t.now at n) }
{
    if place == 0 {
        return false;
    }
    'notes: for i in 0..n {
        let note = t[at + i];
        let off = word_inside(src, 10 + 2 * (note as usize / 65536));
        if set_uses(src, off, size, place, t, glyphs) {
            return true;
        }
    }
    false
}

// What the field `k`, which stands at `place`, adds to the new format: its bit, if it is used.
fn bit_kept(
    src: &[u8],
    size: usize,
    place: usize,
    k: usize,
    t: &[u32],
    at: usize,
    n: usize,
    glyphs: Map,
) -> usize
    requires { NamesSets src.now t.now at n size × (place + 2 ≤ size) × Inside t.now glyphs }
    ensures { (result ≡ keep_if (used_in (entries_in t.now glyphs) src.now size place (notes t.now at n)) k) × (result ≤ k) }
{
    if uses(src, size, place, t, at, n, glyphs) {
        return k;
    }
    0
}

// The format with just the fields that are used, of the format `f`, whose value record starts at `start` in a pair record.
pub fn new_format(
    src: &[u8],
    size: usize,
    start: usize,
    f: usize,
    t: &[u32],
    at: usize,
    n: usize,
    glyphs: Map,
) -> usize
    requires { NamesSets src.now t.now at n size × (start ≤ 18) × (2 ≤ size) × (start + 2 * field_count f ≤ size) × Inside t.now glyphs }
    ensures { result ≡ format_in (entries_in t.now glyphs) src.now size start f (notes t.now at n) }
{
    let a = bit_kept(src, size, field_place(start, f, 1), 1, t, at, n, glyphs);
    let b = bit_kept(src, size, field_place(start, f, 2), 2, t, at, n, glyphs);
    let c = bit_kept(src, size, field_place(start, f, 4), 4, t, at, n, glyphs);
    let d = bit_kept(src, size, field_place(start, f, 8), 8, t, at, n, glyphs);
    a + b + c + d
}
