// The steps that a rule takes, from what the lookups that its records name take.
#![tactic(auto)]

ghost use Rattle.std.specs.Prelude.{◌≡◌, ◌+◌, ◌*◌, ◌≤◌, ◌<◌};
ghost use Rattle.meaning.specs.Words.{entries};
ghost use Rattle.meaning.specs.Tables.{rule};
ghost use Rattle.replaying.specs.Cost.{step_limit, cut_off, larger, steps_of, record_steps, rule_steps};
ghost use Rattle.member_steps.specs.Most.{Counted};

use bits::{has_bit, put_bit};
use rules::rule_parts;
use wire::word_at;

// Steps are counted up to 2^63.
const STEP_LIMIT: usize = 0x8000_0000_0000_0000;

// Two numbers of steps together, cut off at the limit.
pub fn add_steps(a: usize, b: usize) -> usize
    requires { a ≤ step_limit }
    ensures { (result ≡ cut_off (a + b)) × (result ≤ step_limit) }
{
    if STEP_LIMIT - a <= b {
        return STEP_LIMIT;
    }
    a + b
}

// What a lookup takes by its place in the list, where the listed ones take `steps`; one past the list is asked and matches nowhere.
fn steps_of(steps: &[usize], n: usize) -> usize
    ensures { result ≡ steps_of steps.now n }
{
    if n < steps.len() {
        return steps[n];
    }
    1
}

// What the `n` records from `at` on take together.
pub fn record_steps(src: &[u8], at: usize, n: usize, steps: &[usize]) -> usize
    requires { at + 4 * n < 0x1_0000_0000_0000 }
    ensures { result ≡ record_steps steps.now (entries src.now at n) }
{
    let mut sum = 0;
    for i in 0..n {
        let one = steps_of(steps, word_at(src, at + 4 * i + 2));
        sum = add_steps(sum, one);
    }
    sum
}

// What the rule at `at` takes.
fn rule_steps(chained: bool, src: &[u8], at: usize, steps: &[usize]) -> usize
    requires { at < 0x100_0000_0000 }
    ensures { result ≡ rule_steps steps.now (rule chained src.now at) }
{
    let r = rule_parts(chained, src, at);
    record_steps(src, r.records.at, r.records.len, steps)
}

// The larger of `most` and what the rule at `at` takes. A rule whose place has a mark was counted before; another gets one, where `marks` has room for it.
pub fn most_once(
    chained: bool,
    src: &[u8],
    at: usize,
    steps: &[usize],
    most: usize,
    marks: &mut [u32],
) -> usize
    requires { (at < 0x100_0000_0000) × Counted chained src.now steps.now most marks.old }
    ensures { (result ≡ larger most (rule_steps steps.now (rule chained src.now at))) × Counted chained src.now steps.now result marks.new }
{
    if has_bit(marks, 0, at) {
        return most;
    }
    let found = rule_steps(chained, src, at, steps);
    put_bit(marks, 0, at);
    most.max(found)
}
