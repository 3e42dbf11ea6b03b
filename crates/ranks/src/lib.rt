// Ranks of marked numbers: how many marked ones are below a number. From the cell `at` on stand 2,048 cells of marks, with a bit for each number below 65,536 (crate `bits`), and 2,048 cells of counts: the i-th says how many marked numbers are below 32 i.
// So two readings give a rank: the count of the number's cell, and the bits below its own in that cell.
#![tactic(auto)]

ghost use Rattle.std.specs.Prelude.{◌≡◌, ◌+◌, ◌*◌, ◌≤◌, ◌<◌, length};
ghost use Rattle.ranks.specs.Ranks.{mark_cells, rank_in, Counted};

// How many cells the marks take; the counts take as many.
pub const CELLS: usize = 2048;

// The counts, by the marks; how many numbers are marked.
pub fn count_marks(t: &mut [u32], at: usize) -> usize
    requires { at + 2 * mark_cells ≤ length t.old }
    ensures { Counted t.old t.new at result }
{
    let mut count = 0;
    for i in 0..CELLS {
        t[at + i + CELLS] = count as u32;
        count += u32::count_ones(t[at + i]) as usize;
    }
    count
}

// The rank of `x`, where the counts are right.
pub fn rank(t: &[u32], at: usize, x: usize) -> usize
    requires { (at + 2 * mark_cells ≤ length t.now) × (x < 65536) }
    ensures { result ≡ rank_in t.now at x }
{
    let cell = at + x / 32;
    let below = t[cell] as usize & ((1 << (x % 32)) - 1);
    t[cell + CELLS] as usize + u32::count_ones(below as u32) as usize
}
