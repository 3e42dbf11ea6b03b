// The replay with a lent tally: one state, which the replay changes in place.
#![tactic(auto)]

ghost use Rattle.std.specs.Prelude.{◌≡◌};
ghost use Rattle.replaying.specs.Replay.{replay};
ghost use Rattle.tallies.specs.Counting.{replayed_of};

use replay::replay_all;
use tallies::{Replayed, Tally};

// The tally of what a replay gives back.
fn tally_of(r: Replayed) -> Tally
    ensures { result ≡ r.tally }
{
    r.tally
}

// The replay of a trace over a list of lookups in a buffer. The lent tally is set, in place, to what the definition counts; with a refusal before any run that is 0, 0, 0, and with 18 it is as before the run that goes too deep.
pub fn replay(list: &[u8], buffer: &[u8], trace: &[u8], tally: &mut Tally) -> Replayed
    ensures { (replayed_of result ≡ replay list.now buffer.now trace.now) × (tally.new ≡ result.tally) }
{
    let r = replay_all(list, buffer, trace);
    *tally = tally_of(r);
    r
}
