// Replay of label runs: a recorded trace, run over a list of lookups in a lent buffer, and the tally of its runs.
#![tactic(auto)]

ghost use Rattle.std.specs.Prelude.{◌≡◌, true, ◌<◌};
ghost use Rattle.meaning.specs.Words.{is_some};
ghost use Rattle.replaying.specs.Listed.{lookups_of};
ghost use Rattle.replaying.specs.Trace.{runs_of};
ghost use Rattle.replaying.specs.Replay.{changed, played, refusing, runs_in, replay};
ghost use Rattle.lookup_list.specs.Ready.{Ready};
ghost use Rattle.tallies.specs.Counting.{replayed_of};

use lookup_checks::check_lookups;
use lookup_list::good_list;
use names::all_named;
use runs::replay_run;
use tallies::{Replayed, Tally, changed};
use traces::good_trace;
use wire::word_at;

// Replays the runs of a trace, one after another.
fn play_runs(list: &[u8], buffer: &[u8], trace: &[u8]) -> Replayed
    requires { Ready list.now buffer.now × (is_some (runs_of trace.now) ≡ true) }
    ensures { replayed_of result ≡ played (lookups_of list.now buffer.now) (runs_in (runs_of trace.now)) }
{
    let mut tally = Tally {
        runs: 0,
        agreements: 0,
        first: 0,
    };
    let mut at = 0;
    // Each run's count says where the next run stands.
    while at < trace.len() {
        let Ok(agrees) = replay_run(list, buffer, trace, at) else {
            return Replayed {
                number: 18,
                place: 0,
                tally,
            };
        };
        tally = changed(tally, agrees);
        at += 2 + 4 * word_at(trace, at);
    }
    Replayed {
        number: 0,
        place: 0,
        tally,
    }
}

// A refusal before any run.
pub fn refusing(number: usize, place: usize) -> Replayed
    ensures { replayed_of result ≡ refusing (number, place) }
{
    Replayed {
        number,
        place,
        tally: Tally {
            runs: 0,
            agreements: 0,
            first: 0,
        },
    }
}

// The replay of a trace over a list of lookups in a buffer: the first refusal that applies, 15, then 4, 5, 6 or 12 for the first faulty lookup, then 16, then 17; or the runs.
pub fn replay_all(list: &[u8], buffer: &[u8], trace: &[u8]) -> Replayed
    ensures { replayed_of result ≡ replay list.now buffer.now trace.now }
{
    if !good_list(list, buffer) {
        return refusing(15, 0);
    }
    if let Err(refusal) = check_lookups(list, buffer) {
        return refusing(refusal.number(), refusal.place());
    }
    if !good_trace(trace) {
        return refusing(16, 0);
    }
    if !all_named(list, buffer) {
        return refusing(17, 0);
    }
    play_runs(list, buffer, trace)
}
