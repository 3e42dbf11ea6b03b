// The trace: for each run a count, that many glyphs that went in, and as many that came out. Tested.
#![tactic(auto)]

ghost use Rattle.std.specs.Prelude.{◌≡◌, ◌<◌, length};
ghost use Rattle.meaning.specs.Words.{is_some};
ghost use Rattle.replaying.specs.Trace.{good_run, runs_of};

use wire::word_at;

// The most glyphs of a run.
const RUN_LIMIT: usize = 64;

// Whether the run whose count stands at `at` has at most 64 glyphs and lies inside the trace.
fn good_run(trace: &[u8], at: usize) -> bool
    requires { at < length trace.now }
    ensures { result ≡ good_run trace.now at }
{
    let left = trace.len() - at;
    if left < 2 {
        return false;
    }
    let n = word_at(trace, at);
    if RUN_LIMIT < n {
        return false;
    }
    2 + 4 * n <= left
}

// Whether the trace is made of good runs.
pub fn good_trace(trace: &[u8]) -> bool
    ensures { result ≡ is_some (runs_of trace.now) }
{
    let mut at = 0;
    // Each run's count says where the next run stands.
    while at < trace.len() {
        if !good_run(trace, at) {
            return false;
        }
        at += 2 + 4 * word_at(trace, at);
    }
    true
}
