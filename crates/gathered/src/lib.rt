// The numbers of the rules of a set, gathered in cells: two sets are compared by them.
#![tactic(auto)]

ghost use Rattle.std.specs.Prelude.{◌+◌, ◌<◌, length};
ghost use Rattle.gathered.specs.Gathered.{numbers_at, Gathers, Gathered};

use cells::{cell, put_cell};
use set_numbers::Set;
use wire::word_at;

// The numbers of the rules of a set of `src`, into the cells of `nums` from `from` on; how many there are. Null offsets are passed over.
pub fn gather(src: &[u8], set: Set, num: &[u32], nums: &mut [u32], from: usize) -> usize
    requires { Gathers set.side set.at from (length nums.old) }
    ensures { Gathered (numbers_at num.now src.now set.side set.at) from nums.old nums.new result }
{
    if set.at == 0 {
        return 0;
    }
    let n = word_at(src, set.at);
    let mut m = 0;
    for i in 0..n {
        let offset = word_at(src, set.at + 2 + 2 * i);
        if offset == 0 {
            continue;
        }
        let k = cell(num, 2 * (set.at + offset) + set.side);
        put_cell(nums, from + m, k);
        m += 1;
    }
    m
}
