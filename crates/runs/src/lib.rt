// A run of the trace, replayed: what comes out of its glyphs, held against what the trace says.
#![tactic(auto)]

ghost use Rattle.std.specs.Prelude.{◌≡◌, ◌+◌, ◌*◌, ◌<◌, option_map};
ghost use Rattle.std.specs.Result.{result_ok};
ghost use Rattle.meaning.specs.Words.{words};
ghost use Rattle.meaning.specs.Job.{eq_list};
ghost use Rattle.replaying.specs.Listed.{lookups_of};
ghost use Rattle.replaying.specs.Applying.{run};
ghost use Rattle.replaying.specs.Trace.{run_at};
ghost use Rattle.lookup_list.specs.Ready.{Ready};
ghost use Rattle.steps.specs.Stepping.{Room};
ghost use Rattle.traces.specs.Whole.{Whole};

use put_words::put;
use same_words::same_words;
use steps::{TooDeep, run_lookups};
use wire::word_at;

// The `n` words from `at` on, copied to the start of a slice that has room for them.
fn copy_words(src: &[u8], at: usize, out: &mut [u8], n: usize)
    requires { (at + 2 * n < 0x1_0000_0000_0000_0000) × Room n out.old }
    ensures { words out.new 0 n ≡ words src.now at n }
{
    for i in 0..n {
        put(out, 2 * i, word_at(src, at + 2 * i));
    }
}

// Replays the run of the trace whose count stands at `at`: whether what comes out is what the trace says.
pub fn replay_run(list: &[u8], buffer: &[u8], trace: &[u8], at: usize) -> Result<bool, TooDeep>
    requires { Ready list.now buffer.now × Whole trace.now at }
    ensures { result_ok result ≡ option_map (λ s. eq_list s (run_at trace.now at).came) (run (lookups_of list.now buffer.now) (run_at trace.now at).given) }
{
    let n = word_at(trace, at);
    let mut string = [0u8; 128];
    copy_words(trace, at + 2, &mut string, n);
    run_lookups(list, buffer, &mut string, n)?;
    Ok(same_words(&string, 0, trace, at + 2 + 2 * n, n))
}
