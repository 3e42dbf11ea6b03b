// What a replay over a list may cost: the most lookups that it asks for each glyph of a trace, told before any run.
#![tactic(auto)]

ghost use Rattle.std.specs.Prelude.{◌≡◌, true, map, ◌/◌, length, set};
ghost use Rattle.std.proofs.lemmas.List.Edits.{sets};
ghost use Rattle.replaying.specs.Listed.{good_list, lookups_of};
ghost use Rattle.replaying.specs.Cost.{lookup_steps, level_steps, sum_steps, list_steps, replay_cost};
ghost use Rattle.replay_cost.specs.Costing.{cost_of};

use lookup_list::LIST_LIMIT;
use member_steps::add_steps;
use replay::replay_all;
use rule_steps::listed_steps;

// Lookups run eight levels deep, and a turn is two of them.
const TURNS: usize = 4;

// What the call gives back: the number and the place of a refusal, with no steps; or 0, 0 and the steps, cut off at 2^63.
#[derive(Clone, Copy)]
pub struct Cost {
    pub number: usize,
    pub place: usize,
    pub steps: usize,
}

// A number of steps at `at`, where there is room for it.
fn put_steps(steps: &mut [usize], at: usize, n: usize)
    ensures { steps.new ≡ set steps.old at n }
{
    if at < steps.len() {
        steps[at] = n;
    }
}

// What each lookup of a good list takes at a place, from what each takes with one level less.
fn level(list: &[u8], buffer: &[u8], steps: &[usize], next: &mut [usize])
    requires { good_list list.now buffer.now ≡ true }
    ensures { next.new ≡ sets next.old 0 (map (lookup_steps steps.now) (lookups_of list.now buffer.now)) }
{
    let many = list.len() / 10;
    for lookup in 0..many {
        let rule = listed_steps(list, buffer, lookup, steps);
        put_steps(next, lookup, add_steps(1, rule));
    }
}

// These numbers of steps together.
fn sum_steps(steps: &[usize]) -> usize
    ensures { result ≡ sum_steps steps.now }
{
    let mut sum = 0;
    for i in 0..steps.len() {
        sum = add_steps(sum, steps[i]);
    }
    sum
}

// The steps of a good list, eight levels deep. `here` has a 0 for each lookup, and `there` as many places: a turn is two levels, there and back.
fn levels(list: &[u8], buffer: &[u8], here: &mut [usize], there: &mut [usize]) -> usize
    requires { (good_list list.now buffer.now ≡ true) × (here.old ≡ level_steps 0 (lookups_of list.now buffer.now)) × (length there.old ≡ length list.now / 10) }
    ensures { result ≡ list_steps (lookups_of list.now buffer.now) }
{
    for i in 0..TURNS {
        level(list, buffer, here, there);
        level(list, buffer, there, here);
    }
    sum_steps(here)
}

// The steps of a good list.
fn list_steps(list: &[u8], buffer: &[u8]) -> usize
    requires { good_list list.now buffer.now ≡ true }
    ensures { result ≡ list_steps (lookups_of list.now buffer.now) }
{
    let many = list.len() / 10;
    let mut here = [0usize; LIST_LIMIT];
    let mut there = [0usize; LIST_LIMIT];
    levels(list, buffer, &mut here[0..many], &mut there[0..many])
}

// The cost of a list of lookups in a buffer: the first refusal that a replay of any trace would give but 16, or the steps.
pub fn replay_cost(list: &[u8], buffer: &[u8]) -> Cost
    ensures { cost_of result ≡ replay_cost list.now buffer.now }
{
    let r = replay_all(list, buffer, &list[0..0]);
    if r.number != 0 {
        return Cost {
            number: r.number,
            place: r.place,
            steps: 0,
        };
    }
    Cost {
        number: 0,
        place: r.place,
        steps: list_steps(list, buffer),
    }
}
