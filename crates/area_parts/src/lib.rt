// Parts of a layout, written into the area: coverages of glyphs that are noted in cells, and class tables of entries in cells.
#![tactic(auto)]

ghost use Rattle.std.specs.Prelude.{◌≡◌, true, ◌+◌, ◌-◌, ◌*◌, ◌%◌, ◌<◌, ◌≤◌, length, get_or, replicate, eqb};
ghost use Rattle.meaning.specs.Words.{threes, keys, ascends};
ghost use Rattle.meaning.specs.Layout.{indexed, coverage_words, runs, spread, class_words};
ghost use Rattle.laws.specs.RunsLeft.{goes_on};
ghost use Rattle.laws.specs.Written.{Wrote};
ghost use Rattle.area.specs.Extends.{Tried};
ghost use Rattle.area.specs.Part.{news, notes, new_at, old_at, classless, glyph_runs, CountsRuns, CountsClasses};

use area::{over, put, put_three, put_two};

// The new number that a cell holds.
fn new_in(t: &[u32], i: usize) -> usize
    requires { i < length t.now }
    ensures { (result ≡ new_at t.now i) × (result < 65536) }
{
    t[i] as usize % 65536
}

// Whether the new number of the next cell is one more than that of the cell at `i`.
fn neighbours(t: &[u32], i: usize) -> bool
    requires { i + 1 < length t.now }
    ensures { result ≡ eqb (new_at t.now i + 1) (new_at t.now (i + 1)) }
{
    new_in(t, i) + 1 == new_in(t, i + 1)
}

// How many longest runs of neighbours the new glyphs of the `n` cells from `at` on make.
fn count_runs(t: &[u32], at: usize, n: usize) -> usize
    requires { (at + n ≤ length t.now) × (0 < n) }
    ensures { CountsRuns t.now at n result }
{
    let mut runs = 1;
    for i in 0..n - 1 {
        if !neighbours(t, at + i) {
            runs += 1;
        }
    }
    runs
}

// Whether the run that holds the i-th of these glyphs goes on with the next one.
fn goes_on(t: &[u32], at: usize, n: usize, i: usize) -> bool
    requires { (at + n ≤ length t.now) × (i < n) }
    ensures { result ≡ goes_on (new_at t.now (at + i)) 0 (classless (news t.now (at + (i + 1)) (n - (i + 1)))) }
{
    if n <= i + 1 {
        return false;
    }
    neighbours(t, at + i)
}

// These glyphs one by one, from `to` on; the place after them.
fn put_glyphs(t: &[u32], at: usize, n: usize, area: &mut [u8], to: usize) -> usize
    requires { (at + n ≤ length t.now) × (to + 2 * n ≤ length area.old) }
    ensures { Wrote area.old to (news t.now at n) area.new result }
{
    let mut p = to;
    for i in 0..n {
        p = put(area, p, new_in(t, at + i));
    }
    p
}

// A range for each longest run of these glyphs, from `to` on, with the number of glyphs before it; the place after them.
fn put_ranges(t: &[u32], at: usize, n: usize, area: &mut [u8], to: usize) -> usize
    requires { (at + n ≤ length t.now) × (to + 6 * length (glyph_runs (news t.now at n)) ≤ length area.old) }
    ensures { Wrote area.old to (threes (indexed 0 (glyph_runs (news t.now at n)))) area.new result }
{
    let mut p = to;
    let mut first = 0;
    for i in 0..n {
        if goes_on(t, at, n, i) {
            continue;
        }
        let start = new_in(t, at + first);
        let end = new_in(t, at + i);
        p = put_three(area, p, start, end, first);
        first = i + 1;
    }
    p
}

// The coverage at `p` of the new glyphs of the `n` cells from `at` on, in the smaller format; the place after it.
pub fn write_cover(t: &[u32], at: usize, n: usize, area: &mut [u8], p: usize) -> usize
    requires { (at + n ≤ length t.now) × (0 < n) × (p + 6 * n < 0x1_0000_0000_0000) }
    ensures { Tried area.old p (coverage_words (news t.now at n)) area.new result }
{
    let runs = count_runs(t, at, n);
    if n <= 3 * runs {
        if area.len() < p + 4 + 2 * n {
            return over(area);
        }
        let q = put_two(area, p, 1, n);
        return put_glyphs(t, at, n, area, q);
    }
    if area.len() < p + 4 + 6 * runs {
        return over(area);
    }
    let q = put_two(area, p, 2, runs);
    put_ranges(t, at, n, area, q)
}

// The number before the new one that a cell holds: in a list of classes, the glyph.
fn old_in(t: &[u32], i: usize) -> usize
    requires { i < length t.now }
    ensures { (result ≡ old_at t.now i) × (result < 65536) }
{
    t[i] as usize / 65536
}

// Whether the next entry is the next glyph, of the same class.
fn same_run(t: &[u32], i: usize) -> bool
    requires { i + 1 < length t.now }
    ensures { result ≡ eqb (get_or t.now i 0 + 65536) (get_or t.now (i + 1) 0) }
{
    t[i] as usize + 65536 == t[i + 1] as usize
}

// How many longest runs of one class the `n` entries from `at` on make.
fn class_runs(t: &[u32], at: usize, n: usize) -> usize
    requires { (at + n ≤ length t.now) × (0 < n) }
    ensures { CountsClasses t.now at n result }
{
    let mut runs = 1;
    for i in 0..n - 1 {
        if !same_run(t, at + i) {
            runs += 1;
        }
    }
    runs
}

// Whether the run of the i-th entry goes on with the next one.
fn class_goes_on(t: &[u32], at: usize, n: usize, i: usize) -> bool
    requires { (at + n ≤ length t.now) × (i < n) }
    ensures { result ≡ goes_on (old_at t.now (at + i)) (new_at t.now (at + i)) (notes t.now (at + (i + 1)) (n - (i + 1))) }
{
    if n <= i + 1 {
        return false;
    }
    same_run(t, at + i)
}

// A range for each longest run of one class, from `to` on; the place after them.
fn put_class_ranges(t: &[u32], at: usize, n: usize, area: &mut [u8], to: usize) -> usize
    requires { (at + n ≤ length t.now) × (to + 6 * length (runs (notes t.now at n)) ≤ length area.old) }
    ensures { Wrote area.old to (threes (runs (notes t.now at n))) area.new result }
{
    let mut p = to;
    let mut first = 0;
    for i in 0..n {
        if class_goes_on(t, at, n, i) {
            continue;
        }
        let start = old_in(t, at + first);
        let end = old_in(t, at + i);
        let class = new_in(t, at + i);
        p = put_three(area, p, start, end, class);
        first = i + 1;
    }
    p
}

// Class 0 for each of `n` glyphs, from `to` on; the place after them.
fn put_zeros(area: &mut [u8], to: usize, n: usize) -> usize
    requires { to + 2 * n ≤ length area.old }
    ensures { Wrote area.old to (replicate n 0) area.new result }
{
    let end = to + 2 * n;
    area[to..end].fill(0);
    end
}

// The class of each glyph from the first entry's to the last one's, from `to` on; the place after them.
fn put_class_array(t: &[u32], at: usize, n: usize, area: &mut [u8], to: usize) -> usize
    requires { (at + n ≤ length t.now) × (0 < n) × (to + 2 * length (spread (old_at t.now at) (notes t.now at n)) ≤ length area.old) × (ascends (keys (notes t.now at n)) ≡ true) }
    ensures { Wrote area.old to (spread (old_at t.now at) (notes t.now at n)) area.new result }
{
    let mut p = to;
    let mut id = old_in(t, at);
    for i in 0..n {
        let glyph = old_in(t, at + i);
        let q = put_zeros(area, p, glyph - id);
        p = put(area, q, new_in(t, at + i));
        id = glyph + 1;
    }
    p
}

// The class table at `p` of the `n` entries from `at` on, whose glyphs ascend, in the smaller format; the place after it.
pub fn write_classes(t: &[u32], at: usize, n: usize, area: &mut [u8], p: usize) -> usize
    requires { (at + n ≤ length t.now) × (p + 6 * n < 0x1_0000_0000_0000) × (ascends (keys (notes t.now at n)) ≡ true) }
    ensures { Tried area.old p (class_words (notes t.now at n)) area.new result }
{
    if n == 0 {
        if area.len() < p + 4 {
            return over(area);
        }
        return put_two(area, p, 2, 0);
    }
    let first = old_in(t, at);
    let ids = old_in(t, at + n - 1) + 1 - first;
    let runs = class_runs(t, at, n);
    if 6 + 2 * ids <= 4 + 6 * runs {
        if area.len() < p + 6 + 2 * ids {
            return over(area);
        }
        let q = put_three(area, p, 1, first, ids);
        return put_class_array(t, at, n, area, q);
    }
    if area.len() < p + 4 + 6 * runs {
        return over(area);
    }
    let q = put_two(area, p, 2, runs);
    put_class_ranges(t, at, n, area, q)
}
