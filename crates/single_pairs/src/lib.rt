// Single substitutions: the pairs of a glyph and its substitute that stay, by their new numbers, and whether one delta serves them all.
#![tactic(auto)]

ghost use Rattle.std.specs.Prelude.{◌≡◌, ◌+◌, ◌*◌, ◌<◌, ◌≤◌, true, length, slice_index};
ghost use Rattle.meaning.specs.Cut.{delta_of, agree};
ghost use Rattle.single_pairs.specs.Pairs.{Singles, Substitute, pair_of, pairs, KeepsPair, KeptPair, KeepsPairs, KeptPairs};

use cell_maps::Map;
use coverage_glyphs::glyph_at;
use fold::entry;
use std::num::{wrapping_add_u16, wrapping_sub_u16};
use wire::word_inside;

// The pairs that stay: how many there are, and whether their differences agree modulo 65,536.
#[derive(Clone, Copy)]
pub struct Pairs {
    pub count: usize,
    pub same: bool,
}

// The substitute of the glyph with the coverage index `i`: the glyph plus the delta, modulo 65,536, or the one that is listed.
fn substitute(src: &[u8], i: usize) -> usize
    requires { Singles src.now i }
    ensures { Substitute src.now i result }
{
    if word_inside(src, 0) == 1 {
        let glyph = glyph_at(src, word_inside(src, 2), i);
        let delta = word_inside(src, 4);
        return wrapping_add_u16(glyph as u16, delta as u16) as usize;
    }
    word_inside(src, 6 + 2 * i)
}

// The i-th note, laid as a pair into the k-th cell: the new number of its substitute times 65,536, plus its own. The count of pairs: one more, if the substitute is retained.
fn keep_pair(src: &[u8], t: &mut [u32], m: Map, at: usize, i: usize, k: usize) -> usize
    requires { KeepsPair src.now t.old m at i k }
    ensures { KeptPair src.now t.old m at i k t.new result }
{
    let note = t[at + i] as usize;
    let old = substitute(src, note / 65536);
    let e = entry(t, m, old);
    t[at + k] = (e % 65536 * 65536 + note % 65536) as u32;
    if e / 65536 == old {
        return k + 1;
    }
    k
}

// The difference of the substitute and the glyph of the pair in a cell, modulo 65,536.
pub fn difference(t: &[u32], i: usize) -> usize
    requires { i < length t.now }
    ensures { result ≡ delta_of (pair_of (slice_index t.now i)) }
{
    let c = t[i] as usize;
    wrapping_sub_u16((c / 65536) as u16, (c % 65536) as u16) as usize
}

// Whether the differences of the first `next` pairs agree, where `same` says it of the first `k`; there is one more, or none.
fn still_agree(t: &[u32], at: usize, k: usize, next: usize, same: bool) -> bool
    requires { (same ≡ agree (pairs t.now at k)) × (k ≤ next) × (next ≤ k + 1) × (at + next ≤ length t.now) }
    ensures { result ≡ agree (pairs t.now at next) }
{
    if next == k {
        return same;
    }
    same && difference(t, at + k) == difference(t, at)
}

// The pairs that stay of the `n` notes from `at` on, laid in their place, and whether their differences agree.
pub fn keep_pairs(src: &[u8], t: &mut [u32], m: Map, at: usize, n: usize) -> Pairs
    requires { KeepsPairs src.now t.old m at n }
    ensures { KeptPairs src.now t.old m at n t.new result.count result.same }
{
    let mut k = 0;
    let mut same = true;
    for i in 0..n {
        let next = keep_pair(src, t, m, at, i, k);
        same = still_agree(t, at, k, next, same);
        k = next;
    }
    Pairs { count: k, same }
}
