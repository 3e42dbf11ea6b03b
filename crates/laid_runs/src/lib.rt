// A run of a listed glyph map, laid into cells: as a run, or pair by pair.
#![tactic(auto)]

ghost use Rattle.std.specs.Prelude.{◌≡◌, true, ◌+◌, ◌*◌, ◌/◌, ◌<◌, length};
ghost use Rattle.meaning.specs.Words.{word};
ghost use Rattle.meaning.specs.Maps.{good_runs};
ghost use Rattle.cell_maps.specs.Runs.{LaidRun, Spread};

use cell_maps::Map;
use fold_pairs::add;
use wire::word_inside;

// The run `k` of a list, counted from 0, laid into the two cells from `p` on.
pub fn lay_run(list: &[u8], k: usize, t: &mut [u32], p: usize)
    requires { (6 * k + 5 < length list.now) × (0 < word list.now (6 * k + 4)) × (p + 1 < length t.old) }
    ensures { LaidRun list.now k t.old t.new p }
{
    let first = word_inside(list, 6 * k);
    let new = word_inside(list, 6 * k + 2);
    let count = word_inside(list, 6 * k + 4);
    t[p] = (first * 65536 + new) as u32;
    t[p + 1] = (first + count - 1) as u32;
}

// The pairs of the run `k`, each in its own cell of a folded table that has one for each number and holds the pairs of the runs before it.
pub fn spread_run(list: &[u8], k: usize, t: &mut [u32], m: Map)
    requires { (good_runs list.now ≡ true) × (k < length list.now / 6) × Spread list.now t.old t.old m k }
    ensures { Spread list.now t.old t.new m (k + 1) }
{
    let old = word_inside(list, 6 * k);
    let new = word_inside(list, 6 * k + 2);
    let count = word_inside(list, 6 * k + 4);
    for i in 0..count {
        add(t, m, old + i, new + i);
    }
}
