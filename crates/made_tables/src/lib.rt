// Tables at the limits and glyph maps, made in a buffer for `vectors`, and what is left of the tables.
#![tactic(auto)]

ghost use Rattle.std.specs.Prelude.{◌≤◌, ◌<◌};

use put_words::{put, put_entry, put_record};

// Coverage offsets of a context of format 3, from the first place on: `n` that are `step` apart.
fn put_offsets(out: &mut [u8], n: usize, first: usize, step: usize)
    requires { (n ≤ 65536) × (first ≤ 196608) × (step ≤ 65536) }
{
    let mut offset = first;
    for i in 0..n {
        put(out, 6 + 2 * i, offset);
        offset += step;
    }
}

// A coverage of `n` glyphs, two apart, from `first` on, in format 1.
fn put_cover(out: &mut [u8], at: usize, n: usize, first: usize)
    requires { (at < 0x1_0000_0000_0000) × (n ≤ 65536) × (first ≤ 65536) }
{
    put_entry(out, at, 1, n);
    for i in 0..n {
        put(out, at + 4 + 2 * i, first + 2 * i);
    }
}

// As many such coverages as `times` says, one after the other.
fn put_covers(out: &mut [u8], at: usize, times: usize, n: usize, first: usize)
    requires { (at ≤ 196608) × (times ≤ 65536) × (n ≤ 65536) × (first ≤ 65536) }
{
    let mut p = at;
    for _i in 0..times {
        put_cover(out, p, n, first);
        p += 4 + 2 * n;
    }
}

// A map of `n` glyphs, each to the one after it: 1, 3 and so on.
pub fn put_map(out: &mut [u8], n: usize)
    requires { n ≤ 65536 }
{
    for i in 0..n {
        put_entry(out, 4 * i, 1 + 2 * i, 2 + 2 * i);
    }
}

// A context of format 3 at `places` places, each of `n` glyphs from `first` on, that share one coverage.
pub fn put_shared(out: &mut [u8], places: usize, n: usize, first: usize)
    requires { (places ≤ 65536) × (n ≤ 16384) × (first ≤ 65536) }
{
    let at = 6 + 2 * places;
    put_record(out, 0, 3, places, 0);
    put_offsets(out, places, at, 0);
    put_cover(out, at, n, first);
}

// Such a source, of old glyphs.
pub fn put_source(out: &mut [u8], places: usize, n: usize)
    requires { (places ≤ 65536) × (n ≤ 16384) }
{
    put_shared(out, places, n, 1);
}

// What the plain layout keeps of it: each place has a coverage of its own, of the new glyphs.
pub fn put_result(out: &mut [u8], places: usize, n: usize)
    requires { (places ≤ 65536) × (n ≤ 16384) }
{
    let at = 6 + 2 * places;
    put_record(out, 0, 3, places, 0);
    put_offsets(out, places, at, 4 + 2 * n);
    put_covers(out, at, places, n, 2);
}

// A map of the first `n` glyphs, each to itself.
pub fn put_same(out: &mut [u8], n: usize)
    requires { n ≤ 65536 }
{
    for i in 0..n {
        put_entry(out, 4 * i, i, i);
    }
}

// The offsets of the `n` rules of a set from `at` on, and the rules: each of two glyphs, the second being the rule's index.
pub fn put_rules(out: &mut [u8], at: usize, n: usize)
    requires { (at ≤ 65536) × (n ≤ 65536) }
{
    for i in 0..n {
        put(out, at + 2 * i, 2 + 2 * n + 6 * i);
        put_record(out, at + 2 * n + 6 * i, 2, 0, i);
    }
}

// The advance of the pair with this second glyph: -1, -32768 or 32767.
fn advance(glyph: usize) -> usize
    ensures { result < 65536 }
{
    match glyph % 3 {
        0 => 65535,
        1 => 32768,
        _ => 32767,
    }
}

// A pair set at `at`: the first `n` glyphs, each with its advance.
pub fn put_pairs(out: &mut [u8], at: usize, n: usize)
    requires { (at < 0x1_0000_0000) × (n ≤ 65536) }
{
    put(out, at, n);
    for i in 0..n {
        put_entry(out, at + 2 + 4 * i, i, advance(i));
    }
}

// A pair table whose first `n` glyphs are covered and whose sets are `step` apart, the first right after the offsets: all but the sets. The coverage stands at `cover`.
pub fn put_pair_table(out: &mut [u8], n: usize, step: usize, cover: usize)
    requires { (n ≤ 65536) × (step ≤ 65536) × (cover ≤ 65536) }
{
    put_record(out, 0, 1, cover, 4);
    put_entry(out, 6, 0, n);
    put_record(out, cover, 2, 1, 0);
    put(out, cover + 8, 0);
    let mut p = 10 + 2 * n;
    for i in 0..n {
        put(out, 10 + 2 * i, p);
        p += step;
    }
}

// A set of `n` pairs for each of `n` glyphs, one after the other from `at` on.
pub fn put_pair_sets(out: &mut [u8], at: usize, n: usize)
    requires { (at ≤ 65536) × (n ≤ 256) }
{
    let mut p = at;
    for _i in 0..n {
        put_pairs(out, p, n);
        p += 2 + 4 * n;
    }
}

// A single substitution of each of the first `n` glyphs by the next one: a delta of 1, and a coverage of one range.
pub fn put_next(out: &mut [u8], n: usize)
    requires { 0 < n }
{
    put_record(out, 0, 1, 6, 1);
    put_record(out, 6, 2, 1, 0);
    put_entry(out, 12, n - 1, 0);
}

// What is kept of it where the last substitute alone gets another number, 65,535: a list, and that coverage.
pub fn put_list(out: &mut [u8], n: usize)
    requires { (0 < n) × (n ≤ 65536) }
{
    put_record(out, 0, 2, 6 + 2 * n, n);
    for i in 1..n {
        put(out, 4 + 2 * i, i);
    }
    put_record(out, 4 + 2 * n, 65535, 2, 1);
    put_record(out, 10 + 2 * n, 0, n - 1, 0);
}

// The map that gives it that number: of the first `n` glyphs, each to itself, and of the next one.
pub fn put_same_but_last(out: &mut [u8], n: usize)
    requires { n ≤ 65536 }
{
    put_same(out, n);
    put_entry(out, 4 * n, n, 65535);
}
