// What differs between two pair records: values, field by field. The tables stand at the front of their slices.
#![tactic(auto)]

ghost use Rattle.std.specs.Prelude.{◌≡◌, true, ◌+◌, ◌-◌, ◌*◌, ◌≤◌, ◌<◌, get_or};
ghost use Rattle.meaning.specs.Words.{words, up_from};
ghost use Rattle.meaning.specs.Tables.{field_count, field};
ghost use Rattle.differences.specs.Entries.{each, at_field};
ghost use Rattle.listing.specs.Listed.{Listed};
ghost use Rattle.value_differences.specs.Held.{is_field, field_bit, values_at, value_entry};

use listing::put_listed;
use pair_places::field_count;
use wire::word_at;

// The field `k` (1, 2, 4 or 8) of the value record of format `f` that stands at `at`; 0 where the format has no such field.
fn field_at(src: &[u8], at: usize, f: usize, k: usize) -> usize
    requires { (at < 0x1_0000_0000_0000) × (is_field k ≡ true) }
    ensures { (result ≡ field f (words src.now at (field_count f)) k) × (result < 65536) }
{
    if f / k % 2 != 1 {
        return 0;
    }
    word_at(src, at + 2 * field_count(f % k))
}

// The bit of the `i`-th of the four fields in a value format.
fn field_bit(i: usize) -> usize
    requires { i < 4 }
    ensures { (result ≡ field_bit i) × (is_field result ≡ true) }
{
    match i {
        0 => 1,
        1 => 2,
        2 => 4,
        _ => 8,
    }
}

// The `i`-th value of the pair record at `p`: four of the first glyph, then four of the second; 0 where the format has no such field.
fn value_at(src: &[u8], p: usize, i: usize) -> usize
    requires { (p < 0x1_0000_0000) × (i < 8) }
    ensures { result ≡ get_or (values_at src.now p) i 0 }
{
    let f = word_at(src, 4);
    if i < 4 {
        return field_at(src, p + 2, f, field_bit(i));
    }
    let second = p + 2 + 2 * field_count(f);
    field_at(src, second, word_at(src, 6), field_bit(i - 4))
}

// The entry of the value `i` of a pair, `a` on the left and `b` on the right, if they differ; the place after it.
fn put_value(
    out: &mut [u8],
    pos: usize,
    g: usize,
    second: usize,
    i: usize,
    a: usize,
    b: usize,
) -> usize
    requires { pos < 0x8000_0000_0000 }
    ensures { Listed (value_entry g second i a b) out.old pos out.new result × (result ≤ pos + 12) }
{
    if a == b {
        return pos;
    }
    put_listed(out, pos, 6, i, g, second, a, b)
}

// The values that differ between the pair records at `p` on the left and at `q` on the right, listed from `pos` on, field by field; the place after them.
pub fn list_fields(
    left: &[u8],
    p: usize,
    right: &[u8],
    q: usize,
    g: usize,
    second: usize,
    out: &mut [u8],
    pos: usize,
) -> usize
    requires { (p < 0x1_0000_0000) × (q < 0x1_0000_0000) × (pos < 0x4000_0000_0000) }
    ensures { Listed (each (at_field g second (values_at left.now p) (values_at right.now q)) (up_from 0 8)) out.old pos out.new result × (result ≤ pos + 96) }
{
    let mut at = pos;
    for i in 0..8 {
        let a = value_at(left, p, i);
        let b = value_at(right, q, i);
        at = put_value(out, at, g, second, i, a, b);
    }
    at
}
