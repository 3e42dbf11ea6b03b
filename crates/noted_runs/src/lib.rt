// One run of a glyph map, met with glyphs in a row: those that it has are noted in cells.
#![tactic(auto)]

ghost use Rattle.std.specs.Prelude.{◌≡◌, ◌+◌, ◌≤◌, ◌<◌, length};
ghost use Rattle.noted_runs.specs.Walks.{NotedSteps, MeetsRun, InRun};

use glyph_runs::run_at;

// Glyphs in a row that are noted: how many there are, and the glyph after them.
#[derive(Clone, Copy)]
pub struct Noted {
    pub count: usize,
    pub next: usize,
}

// `n` notes in step from `to` on, with the coverage indexes from `index` on and the new numbers from `new` on.
fn note_steps(t: &mut [u32], to: usize, index: usize, new: usize, n: usize)
    requires { (to + n ≤ length t.old) × (index + n ≤ 65536) × (new + n ≤ 65536) }
    ensures { NotedSteps t.old t.new to index new n }
{
    for i in 0..n {
        t[to + i] = ((index + i) * 65536 + (new + i)) as u32;
    }
}

// The glyphs from `first` to `last` that the run `e` has, noted from `to` on, where the glyph `first` has the coverage index `index`.
pub fn meet_run(
    glyphs: &[u8],
    e: usize,
    first: usize,
    last: usize,
    index: usize,
    t: &mut [u32],
    to: usize,
) -> Noted
    requires { MeetsRun glyphs.now e first last index t.old to }
    ensures { InRun glyphs.now e first last index t.old to t.new result }
{
    let run = run_at(glyphs, 6, e);
    let from = first.max(run.old);
    let next = (last + 1).min(run.old + run.count);
    let new = run.new + (from - run.old);
    note_steps(t, to, index + (from - first), new, next - from);
    Noted {
        count: next - from,
        next,
    }
}
