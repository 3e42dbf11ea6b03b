// What a replay gives back, and its tally as one more run changes it.
#![tactic(auto)]

ghost use Rattle.std.specs.Prelude.{◌≡◌, cond, ◌≤◌, ◌<◌, eqb};
ghost use Rattle.replaying.specs.Replay.{changed};
ghost use Rattle.tallies.specs.Counting.{tally_of};

// How many runs there were, how many agreed, and the first that did not, from 1; 0 if none.
#[derive(Clone, Copy)]
pub struct Tally {
    pub runs: usize,
    pub agreements: usize,
    pub first: usize,
}

// What a replay gives back: its number, the place that comes with 6, and the tally. With 18 it is as before the run that goes too deep.
#[derive(Clone, Copy)]
pub struct Replayed {
    pub number: usize,
    pub place: usize,
    pub tally: Tally,
}

// The first run that did not agree, as one more that does not changes it.
fn first_out(first: usize, runs: usize) -> usize
    ensures { result ≡ cond (eqb first 0) runs first }
{
    if first == 0 {
        return runs;
    }
    first
}

// The tally as one more run changes it.
pub fn changed(tally: Tally, agrees: bool) -> Tally
    requires { (tally.runs < 0xFFFF_FFFF_FFFF_FFFF) × (tally.agreements ≤ tally.runs) }
    ensures { tally_of result ≡ changed agrees (tally_of tally) }
{
    let runs = tally.runs + 1;
    if agrees {
        return Tally {
            runs,
            agreements: tally.agreements + 1,
            first: tally.first,
        };
    }
    Tally {
        runs,
        agreements: tally.agreements,
        first: first_out(tally.first, runs),
    }
}
