// Glyph maps in cells: a listed map of pairs or of runs, laid.
#![tactic(auto)]

ghost use Rattle.std.specs.Prelude.{◌≡◌, true, ◌+◌, ◌*◌, ◌/◌, ◌<◌};
ghost use Rattle.meaning.specs.Maps.{good_runs, good_glyph_map};
ghost use Rattle.cell_maps.specs.Runs.{LaidRuns, LaidGlyphs};

use cell_maps::Map;
use fold_pairs::{clear, lay};
use laid_runs::{lay_run, spread_run};

// The most runs that are laid as runs: their mask is below 65,536.
const RUNS: usize = 16383;

// The listed runs, laid into `t` from `at` on pair by pair: a folded table with a cell for each number. The mask is 0 where there is no room.
fn spread_runs(list: &[u8], t: &mut [u32], at: usize) -> Map
    requires { (at < 0x1_0000_0000_0000) × (good_runs list.now ≡ true) }
    ensures { LaidRuns list.now t.old t.new at result }
{
    if t.len() < at + 65536 {
        return Map { at, mask: 0 };
    }
    let m = Map { at, mask: 65535 };
    clear(t, m);
    for k in 0..list.len() / 6 {
        spread_run(list, k, t, m);
    }
    m
}

// The listed runs, laid into `t` from `at` on: as runs, or pair by pair if they are too many for that. The mask is 0 where there is no room.
fn lay_runs(list: &[u8], t: &mut [u32], at: usize) -> Map
    requires { (at < 0x1_0000_0000_0000) × (good_runs list.now ≡ true) }
    ensures { LaidRuns list.now t.old t.new at result }
{
    let n = list.len() / 6;
    if RUNS < n {
        return spread_runs(list, t, at);
    }
    if t.len() <= at + 4 * n + 2 {
        return Map { at, mask: 0 };
    }
    for k in 0..n {
        lay_run(list, k, t, at + 2 * (k + 1));
    }
    Map {
        at,
        mask: 4 * n + 2,
    }
}

// A good glyph map in the form with this mark, 6 for runs and pairs for any other, laid into `t` from `at` on. The mask is 0 where there is no room.
pub fn lay_glyphs(list: &[u8], form: usize, t: &mut [u32], at: usize) -> Map
    requires { (at < 0x1_0000_0000_0000) × (good_glyph_map form list.now ≡ true) }
    ensures { LaidGlyphs form list.now t.old t.new at result }
{
    if form == 6 {
        return lay_runs(list, t, at);
    }
    lay(list, t, at)
}
