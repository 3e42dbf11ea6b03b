// What differs between two contexts by coverages (format 3): one rule each, compared as it stands. A coverage is its glyphs, in whichever format they are listed.
#![tactic(auto)]

ghost use Rattle.std.specs.Prelude.{◌≡◌, true, ◌+◌, ◌*◌, ◌≤◌, ◌<◌, eqb, None};
ghost use Rattle.meaning.specs.Words.{word, entries};
ghost use Rattle.meaning.specs.Tables.{table};
ghost use Rattle.meaning.specs.Fault.{fault};
ghost use Rattle.differences.specs.Content.{content};
ghost use Rattle.differences.specs.Entries.{same_list, same_two, same_says, differences};
ghost use Rattle.listing.specs.Listed.{Listed};
ghost use Rattle.cover_differences.specs.Stretches.{first_at, last_at, count_at, sound_at, cover_at};
ghost use Rattle.cover_differences.specs.Rows.{SoundRow, row_runs, same_row};
ghost use Rattle.cover_differences.specs.Contexts.{plain_says, SoundPlain, two_rules};
ghost use Rattle.cover_differences.specs.Chained.{chained_says, SoundChained};

use listing::put_listed;
use wire::word_at;

// The first glyph of the `i`-th stretch of the coverage at `at`: a listed glyph is a stretch of one, a range is one.
fn first_at(src: &[u8], at: usize, i: usize) -> usize
    requires { (at < 65536) × (i < 65536) }
    ensures { (result ≡ first_at src.now at i) × (result < 65536) }
{
    if word_at(src, at) == 1 {
        return word_at(src, at + 4 + 2 * i);
    }
    word_at(src, at + 4 + 6 * i)
}

// Its last glyph.
fn last_at(src: &[u8], at: usize, i: usize) -> usize
    requires { (at < 65536) × (i < 65536) }
    ensures { (result ≡ last_at src.now at i) × (result < 65536) }
{
    if word_at(src, at) == 1 {
        return word_at(src, at + 4 + 2 * i);
    }
    word_at(src, at + 4 + 6 * i + 2)
}

// How many stretches the coverage at `at` has; a null one, at 0, has none.
fn count_at(src: &[u8], at: usize) -> usize
    requires { at < 65536 }
    ensures { (result ≡ count_at src.now at) × (result < 65536) }
{
    if at == 0 {
        return 0;
    }
    word_at(src, at + 2)
}

// Whether the coverages at `l` on the left and at `r` on the right have the same glyphs. Both are walked by stretches; `a` and `b` are the lowest glyphs that are left of the current ones.
fn same_glyphs(left: &[u8], l: usize, right: &[u8], r: usize) -> bool
    requires { (l < 65536) × (r < 65536) × (sound_at left.now l ≡ true) × (sound_at right.now r ≡ true) }
    ensures { result ≡ same_list eqb (cover_at left.now l) (cover_at right.now r) }
{
    let m = count_at(left, l);
    let n = count_at(right, r);
    let mut i = 0;
    let mut j = 0;
    let mut a = 0;
    let mut b = 0;
    // A while: a step passes a stretch of one side, or of both.
    'stretches: while i < m {
        if n <= j {
            return false;
        }
        let p = first_at(left, l, i).max(a);
        let q = first_at(right, r, j).max(b);
        if p != q {
            return false;
        }
        let z = last_at(left, l, i);
        let y = last_at(right, r, j);
        if z < y {
            i += 1;
            a = 0;
            b = z + 1;
            continue 'stretches;
        }
        if y < z {
            j += 1;
            b = 0;
            a = y + 1;
            continue 'stretches;
        }
        i += 1;
        j += 1;
        a = 0;
        b = 0;
    }
    n <= j
}

// Whether the `n` coverages whose offsets stand from `p` on have the same glyphs on the left and on the right, one by one.
fn same_covers(left: &[u8], right: &[u8], p: usize, n: usize) -> bool
    requires { (p + 2 * n < 0x1_0000_0000) × SoundRow left.now p n × SoundRow right.now p n }
    ensures { result ≡ same_row (row_runs left.now p n) (row_runs right.now p n) }
{
    for i in 0..n {
        let l = word_at(left, p + 2 * i);
        let r = word_at(right, p + 2 * i);
        if !same_glyphs(left, l, right, r) {
            return false;
        }
    }
    true
}

// Whether the `n` entries of two words from `p` on are the same on the left and on the right.
fn same_entries(left: &[u8], right: &[u8], p: usize, n: usize) -> bool
    requires { p + 4 * n < 0x1_0000_0000 }
    ensures { result ≡ same_list same_two (entries left.now p n) (entries right.now p n) }
{
    for i in 0..n {
        if word_at(left, p + 4 * i) != word_at(right, p + 4 * i) {
            return false;
        }
        if word_at(left, p + 4 * i + 2) != word_at(right, p + 4 * i + 2) {
            return false;
        }
    }
    true
}

// Whether the rows of coverages whose counts stand at `p` are the same on the left and on the right.
fn same_row(left: &[u8], right: &[u8], p: usize) -> bool
    requires { (p < 0x100_0000) × SoundRow left.now (p + 2) (word left.now p) × SoundRow right.now (p + 2) (word right.now p) }
    ensures { result ≡ same_row (row_runs left.now (p + 2) (word left.now p)) (row_runs right.now (p + 2) (word right.now p)) }
{
    let n = word_at(left, p);
    if n != word_at(right, p) {
        return false;
    }
    same_covers(left, right, p + 2, n)
}

// Whether the records from `p` on, whose counts stand at `k`, are the same on the left and on the right.
fn same_records(left: &[u8], right: &[u8], k: usize, p: usize) -> bool
    requires { p < 0x100_0000 }
    ensures { result ≡ same_list same_two (entries left.now p (word left.now k)) (entries right.now p (word right.now k)) }
{
    let n = word_at(left, k);
    if n != word_at(right, k) {
        return false;
    }
    same_entries(left, right, p, n)
}

// Whether two plain contexts by coverages say the same.
fn same_plain(left: &[u8], right: &[u8]) -> bool
    requires { SoundPlain left.now × SoundPlain right.now }
    ensures { result ≡ same_says (plain_says left.now) (plain_says right.now) }
{
    let n = word_at(left, 2);
    if n != word_at(right, 2) {
        return false;
    }
    if !same_covers(left, right, 6, n) {
        return false;
    }
    same_records(left, right, 4, 6 + 2 * n)
}

// What is listed of two contexts by coverages from `pos` on, if they are not the same: both, as rules that only one side has; the place after it.
fn list_rules(same: bool, out: &mut [u8], pos: usize) -> usize
    requires { pos < 0x4000_0000_0000 }
    ensures { Listed (two_rules same) out.old pos out.new result × (result ≤ pos + 24) }
{
    if same {
        return pos;
    }
    let p = put_listed(out, pos, 3, 0, 0, 0, 0, 0);
    put_listed(out, p, 3, 1, 0, 0, 0, 0)
}

// What differs between two sound plain contexts by coverages, listed from `pos` on, where there is room; the place after it.
pub fn list_plain(left: &[u8], right: &[u8], out: &mut [u8], pos: usize) -> usize
    requires { (fault 1 left.now ≡ None) × (word left.now 0 ≡ 3) × (fault 1 right.now ≡ None) × (word right.now 0 ≡ 3) × (pos < 0x4000_0000_0000) }
    ensures { Listed (differences (content (table 1 left.now)) (content (table 1 right.now))) out.old pos out.new result × (result ≤ pos + 24) }
{
    list_rules(same_plain(left, right), out, pos)
}

// Whether two chained contexts by coverages say the same. Rows of one length end at one place, so that one place serves both sides.
fn same_chained(left: &[u8], right: &[u8]) -> bool
    requires { SoundChained left.now × SoundChained right.now }
    ensures { result ≡ same_says (chained_says left.now) (chained_says right.now) }
{
    if !same_row(left, right, 2) {
        return false;
    }
    let i = 4 + 2 * word_at(left, 2);
    if !same_row(left, right, i) {
        return false;
    }
    let a = i + 2 + 2 * word_at(left, i);
    if !same_row(left, right, a) {
        return false;
    }
    let r = a + 2 + 2 * word_at(left, a);
    same_records(left, right, r, r + 2)
}

// What differs between two sound chained contexts by coverages, listed from `pos` on, where there is room; the place after it.
pub fn list_chained(left: &[u8], right: &[u8], out: &mut [u8], pos: usize) -> usize
    requires { (fault 2 left.now ≡ None) × (word left.now 0 ≡ 3) × (fault 2 right.now ≡ None) × (word right.now 0 ≡ 3) × (pos < 0x4000_0000_0000) }
    ensures { Listed (differences (content (table 2 left.now)) (content (table 2 right.now))) out.old pos out.new result × (result ≤ pos + 24) }
{
    list_rules(same_chained(left, right), out, pos)
}
