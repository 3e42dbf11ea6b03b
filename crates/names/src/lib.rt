// The lookups that records name: 17 where one is not of the list, in any rule, reached by a run or not.
#![tactic(auto)]

ghost use Rattle.std.specs.Prelude.{◌≡◌, true, ◌/◌, length, replicate};
ghost use Rattle.replaying.specs.Listed.{good_list, lookups_of, all_named};

use lookup_list::LIST_LIMIT;
use rule_steps::listed_steps;

// Whether each record of each lookup of a good list names one of the list. `zeros` has a 0 for each listed lookup: where these take no steps, a rule takes one for each of its records that names another.
fn named_by(list: &[u8], buffer: &[u8], zeros: &[usize]) -> bool
    requires { (good_list list.now buffer.now ≡ true) × (zeros.now ≡ replicate (length list.now / 10) 0) }
    ensures { result ≡ all_named (lookups_of list.now buffer.now) }
{
    let many = list.len() / 10;
    for lookup in 0..many {
        if listed_steps(list, buffer, lookup, zeros) != 0 {
            return false;
        }
    }
    true
}

// Whether each record of each lookup of a good list names one of the list.
pub fn all_named(list: &[u8], buffer: &[u8]) -> bool
    requires { good_list list.now buffer.now ≡ true }
    ensures { result ≡ all_named (lookups_of list.now buffer.now) }
{
    let many = list.len() / 10;
    let zeros = [0usize; LIST_LIMIT];
    named_by(list, buffer, &zeros[0..many])
}
