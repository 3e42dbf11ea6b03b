// Maps in cells: a part of `t`, `mask` + 1 cells from `at` on.
// With an odd mask it is a folded table. The cell of a number is found by the number's low bits; it holds the old number times 65,536, plus the new one.
// A cell that holds no entry holds an old number whose cell is another one. So one reading answers.
// With an even mask they are ranks or runs.
// Ranks, with a mask of their own: marks of the old numbers, and counts of the marks (crate `ranks`). The new number is the rank, so that no entry takes a cell.
// Runs of pairs in step, counted from 1, two cells each: the first old number times 65,536, plus the first new one, and the last old number. Halving finds the run of a number. The mask of n runs is 4 n + 2, which is never that of ranks.
#![tactic(auto)]

ghost use Rattle.std.specs.Prelude.{◌≡◌, ◌+◌, ◌*◌, ◌/◌, ◌<◌, ◌≤◌, length};
ghost use Rattle.ranks.specs.Ranks.{mark_cells};
ghost use Rattle.cell_maps.specs.Cells.{Inside, no_entry, run_entry, rank_entry, even_entry, RunFound};

use bits::has_bit;
use ranks::rank;

// A map's part of the cells. A mask of 0 says that there are too few.
#[derive(Clone, Copy)]
pub struct Map {
    pub at: usize,
    pub mask: usize,
}

// The mask of ranks: marks and counts take 4,096 cells, and one more stays unused.
pub const RANKED: usize = 2 * ranks::CELLS;

// An entry of another number than `old`.
fn no_entry(old: usize) -> usize
    ensures { (result ≡ no_entry old) × (result < 0x1_0000_0000) }
{
    if old == 0 {
        return 65536;
    }
    0
}

// The last run that starts at `old` or before, by halving; 0 if none does.
fn last_run(t: &[u32], m: Map, old: usize) -> usize
    requires { Inside t.now m }
    ensures { RunFound t.now m old result }
{
    let mut lo = 0;
    let mut hi = m.mask / 4 + 1;
    while lo + 1 < hi {
        let mid = lo + (hi - lo) / 2;
        let cell = m.at + 2 * mid;
        if t[cell] as usize / 65536 <= old {
            lo = mid;
        } else {
            hi = mid;
        }
    }
    lo
}

// What the run `k` says of `old`: its entry, or one of another number if the run ends before it, and if `k` is 0.
fn run_entry(t: &[u32], at: usize, k: usize, old: usize) -> usize
    requires { (k ≡ 0 → ⊥) → at + 2 * k + 1 < length t.now }
    ensures { (result ≡ run_entry t.now at k old) × (result < 0x1_0000_0000) }
{
    if k == 0 {
        return no_entry(old);
    }
    let last = t[at + 2 * k + 1] as usize % 65536;
    if last < old {
        return no_entry(old);
    }
    let run = t[at + 2 * k] as usize;
    old * 65536 + (run % 65536 + 65536 + old - run / 65536) % 65536
}

// What ranks say of `old`: its entry, or one of another number if `old` is not marked.
fn rank_entry(t: &[u32], at: usize, old: usize) -> usize
    requires { at + 2 * mark_cells ≤ length t.now }
    ensures { (result ≡ rank_entry t.now at old) × (result < 0x1_0000_0000) }
{
    if 65535 < old {
        return no_entry(old);
    }
    if !has_bit(t, at, old) {
        return no_entry(old);
    }
    old * 65536 + rank(t, at, old) % 65536
}

// What the cells of a map with an even mask hold for `old`.
pub fn even_entry(t: &[u32], m: Map, old: usize) -> usize
    requires { Inside t.now m }
    ensures { (result ≡ even_entry t.now m old) × (result < 0x1_0000_0000) }
{
    if m.mask == RANKED {
        return rank_entry(t, m.at, old);
    }
    run_entry(t, m.at, last_run(t, m, old), old)
}
