// Where a check finds a fault, if it does: the lower of two, and whether one was found before a part starts.
#![tactic(auto)]

ghost use Rattle.std.specs.Prelude.{◌≡◌, ◌<◌};
ghost use Rattle.meaning.specs.Fault.{lowest};
ghost use Rattle.faults.specs.Low.{found_before};

// Whether a fault was found at `at` or before it. No part has one before its own start, so what starts at `at` has none that is lower.
pub fn found_before(low: Option<usize>, at: usize) -> bool
    ensures { result ≡ found_before low at }
{
    low.is_some_and(|place| place <= at)
}

// The lower of two faults, where there is one.
#[tactic(auto, unfolding(meaning::specs::Fault::lowest))]
pub fn lowest(a: Option<usize>, b: Option<usize>) -> Option<usize>
    ensures { result ≡ lowest a b }
{
    match (a, b) {
        (None, q) => q,
        (p, None) => p,
        (Some(p), Some(q)) => Some(p.min(q)),
    }
}
