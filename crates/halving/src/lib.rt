// Halving: among numbers of a source that ascend, the first that is not below a value.
#![tactic(auto)]

ghost use Rattle.std.specs.Prelude.{◌≤◌, ◌<◌};
ghost use Rattle.halving.specs.Rising.{Rising, Reached};

use wire::word_inside;

// Which of the places from `lo` up to `hi` to look at next: the first one while it is before `near`, else the middle one.
fn probe(lo: usize, hi: usize, near: usize) -> usize
    requires { lo < hi }
    ensures { (lo ≤ result) × (result < hi) }
{
    if lo < near {
        return lo;
    }
    lo + (hi - lo) / 2
}

// Of the `n` words that stand `step` bytes apart from `at` on, and ascend: the first from the `from`-th on that is `value` or more; `n` if none is.
// Those before the `near`-th are looked at one by one, then the search halves: a search from where the last one ended takes `from + 4`, since the next is often close, and one in a long list takes 0.
pub fn reach(
    s: &[u8],
    at: usize,
    step: usize,
    n: usize,
    from: usize,
    near: usize,
    value: usize,
) -> usize
    requires { Rising s.now at step n × (from ≤ n) }
    ensures { Reached s.now at step n from value result }
{
    let mut lo = from;
    let mut hi = n;
    while lo < hi {
        let mid = probe(lo, hi, near);
        if word_inside(s, at + step * mid) < value {
            lo = mid + 1;
        } else {
            hi = mid;
        }
    }
    lo
}
