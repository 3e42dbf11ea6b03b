// What differs between two pair tables by glyph (kind 4, format 1): pairs that one of them has, and values, field by field. The tables stand at the front of their slices.
#![tactic(auto)]

ghost use Rattle.std.specs.Prelude.{◌≡◌, true, ◌+◌, ◌-◌, ◌*◌, ◌≤◌, ◌<◌, None};
ghost use Rattle.meaning.specs.Words.{word, words, up_from};
ghost use Rattle.meaning.specs.Tables.{table};
ghost use Rattle.meaning.specs.Fault.{fault};
ghost use Rattle.meaning.specs.Cut.{glyphs_of};
ghost use Rattle.laws.specs.Runs.{Up};
ghost use Rattle.differences.specs.Content.{content};
ghost use Rattle.differences.specs.Entries.{each, at_field, pair_entries, differences};
ghost use Rattle.listing.specs.Listed.{Listed};
ghost use Rattle.first_glyphs.specs.First.{at_glyph};
ghost use Rattle.value_differences.specs.Held.{values_at, size_of, next_second, held};
ghost use Rattle.pair_differences.specs.Whole.{pairs_in, PairTable};

use first_glyphs::{cover_index, list_right};
use listing::put_listed;
use pair_places::field_count;
use same_words::same_words;
use value_differences::list_fields;
use view::set_count;
use wire::word_at;

// Whether the pair records at `p` on the left and at `q` on the right say the same in the same words: both tables have the same value formats, and the records the same values behind each other.
fn alike(left: &[u8], p: usize, right: &[u8], q: usize) -> bool
    requires { (p < 0x1_0000_0000) × (q < 0x1_0000_0000) }
    ensures { result ≡ true → values_at left.now p ≡ values_at right.now q }
{
    let f = word_at(left, 4);
    let h = word_at(left, 6);
    if f != word_at(right, 4) {
        return false;
    }
    if h != word_at(right, 6) {
        return false;
    }
    let n = field_count(f);
    if !same_words(left, p + 2, right, q + 2, n) {
        return false;
    }
    same_words(left, p + 2 + 2 * n, right, q + 2 + 2 * n, field_count(h))
}

// The list of `value_differences::list_fields`. Most pairs stand in both tables with the same words, which one look settles.
fn list_values(
    left: &[u8],
    p: usize,
    right: &[u8],
    q: usize,
    g: usize,
    second: usize,
    out: &mut [u8],
    pos: usize,
) -> usize
    requires { (p < 0x1_0000_0000) × (q < 0x1_0000_0000) × (pos < 0x4000_0000_0000) }
    ensures { Listed (each (at_field g second (values_at left.now p) (values_at right.now q)) (up_from 0 8)) out.old pos out.new result × (result ≤ pos + 96) }
{
    if alike(left, p, right, q) {
        return pos;
    }
    list_fields(left, p, right, q, g, second, out, pos)
}

// How many bytes a pair record of this table takes.
fn pair_size(src: &[u8]) -> usize
    ensures { (result ≡ size_of src.now) × (result ≤ 34) }
{
    2 + 2 * field_count(word_at(src, 4)) + 2 * field_count(word_at(src, 6))
}

// The second glyph of the record at `p`, where `n` records are left; past all glyphs where none is.
fn next_second(src: &[u8], p: usize, n: usize) -> usize
    ensures { (result ≡ next_second src.now p n) × (result < 65536 + (1 - n)) }
{
    if n == 0 {
        return 65536;
    }
    word_at(src, p)
}

// What differs between the pairs of the first glyph `g`, from the sets at `l` on the left and at `r` on the right, listed from `pos` on; the place after it. Both sets are walked from the front, the lower second glyph first.
fn list_sets(
    left: &[u8],
    l: usize,
    right: &[u8],
    r: usize,
    g: usize,
    out: &mut [u8],
    pos: usize,
) -> usize
    requires { (l < 65536) × (r < 65536) × (pos < 0x2000_0000_0000) × Up 0 (glyphs_of (held left.now l)) × Up 0 (glyphs_of (held right.now r)) }
    ensures { Listed (pair_entries g (held left.now l) (held right.now r)) out.old pos out.new result × (result ≤ pos + 0x100_0000) }
{
    let lsize = pair_size(left);
    let rsize = pair_size(right);
    let mut at = pos;
    let mut p = l + 2;
    let mut m = set_count(left, l);
    let mut q = r + 2;
    let mut n = set_count(right, r);
    // A while: a step passes a pair of one side, or of both.
    'pairs: while 0 < m + n {
        let a = next_second(left, p, m);
        let b = next_second(right, q, n);
        if a < b {
            at = put_listed(out, at, 5, 0, g, a, 0, 0);
            p += lsize;
            m -= 1;
            continue 'pairs;
        }
        if b < a {
            at = put_listed(out, at, 5, 1, g, b, 0, 0);
            q += rsize;
            n -= 1;
            continue 'pairs;
        }
        at = list_values(left, p, right, q, g, a, out, at);
        p += lsize;
        m -= 1;
        q += rsize;
        n -= 1;
    }
    at
}

// What differs for the first glyph `g`, listed from `pos` on; the place after it.
fn list_glyph(left: &[u8], right: &[u8], g: usize, out: &mut [u8], pos: usize) -> usize
    requires { PairTable left.now × PairTable right.now × (g < 65536) × (pos < 0x1000_0000_0000) }
    ensures { Listed (at_glyph pair_entries (pairs_in left.now) (pairs_in right.now) g) out.old pos out.new result × (result ≤ pos + 0x100_0000) }
{
    let Some(i) = cover_index(left, g) else {
        return list_right(right, g, out, pos);
    };
    let Some(j) = cover_index(right, g) else {
        return put_listed(out, pos, 2, 0, g, 0, 0, 0);
    };
    let l = word_at(left, 10 + 2 * i);
    let r = word_at(right, 10 + 2 * j);
    list_sets(left, l, right, r, g, out, pos)
}

// What differs between two sound pair tables by glyph, listed from `pos` on, where there is room; the place after it. All ids are asked in both coverages.
pub fn list_pairs(left: &[u8], right: &[u8], out: &mut [u8], pos: usize) -> usize
    requires { (fault 4 left.now ≡ None) × (word left.now 0 ≡ 1) × (fault 4 right.now ≡ None) × (word right.now 0 ≡ 1) × (pos < 0x800_0000_0000) }
    ensures { Listed (differences (content (table 4 left.now)) (content (table 4 right.now))) out.old pos out.new result × (result ≤ pos + 0x100_0000_0000) }
{
    let mut at = pos;
    for g in 0..65536 {
        at = list_glyph(left, right, g, out, at);
    }
    at
}
