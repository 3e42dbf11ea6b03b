// Good glyph maps of runs: six bytes a run, first old word, first new word and count, for that many pairs in step.
#![tactic(auto)]

ghost use Rattle.std.specs.Prelude.{◌≡◌, ◌&&◌, ◌+◌, ◌<◌, leb, ltb};
ghost use Rattle.meaning.specs.Maps.{good_runs};

use wire::word_inside;

// Whether a run of `n` pairs may stand where `old` and `new` are the lowest numbers that are left.
fn run_fits(old: usize, new: usize, first: usize, becomes: usize, n: usize) -> bool
    requires { (first < 65536) × (becomes < 65536) × (n < 65536) }
    ensures { result ≡ leb old first && (leb new becomes && (ltb 0 n && (leb (first + n) 65536 && leb (becomes + n) 65536))) }
{
    if first < old {
        return false;
    }
    if becomes < new {
        return false;
    }
    if n == 0 {
        return false;
    }
    if 65536 < first + n {
        return false;
    }
    becomes + n <= 65536
}

// Whether the map has whole runs, each with a count that is not 0, which ends at 65,535 or before in both columns and starts in both after the run before it.
pub fn good_runs(m: &[u8]) -> bool
    ensures { result ≡ good_runs m.now }
{
    if m.len() % 6 != 0 {
        return false;
    }
    let mut old = 0;
    let mut new = 0;
    for i in 0..m.len() / 6 {
        let first = word_inside(m, 6 * i);
        let becomes = word_inside(m, 6 * i + 2);
        let n = word_inside(m, 6 * i + 4);
        if !run_fits(old, new, first, becomes, n) {
            return false;
        }
        old = first + n;
        new = becomes + n;
    }
    true
}
