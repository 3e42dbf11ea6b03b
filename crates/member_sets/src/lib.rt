// Sets whose members are written one after the other, behind a place for the count and for each offset of the source: what is left is put together.
#![tactic(auto)]

ghost use Rattle.std.specs.Prelude.{◌+◌, ◌*◌, ◌≤◌, ◌<◌, length};
ghost use Rattle.member_sets.specs.Sets.{ClosedSet};

use area::put;
use handing::close_up;
use wire::word_at;

// The set of the `k` members that stand from `first` up to `end`, whose offsets stand after the place for the count at `pos`: the count, the offsets and the members, with no gap between them.
pub fn close_set(area: &mut [u8], pos: usize, k: usize, first: usize, end: usize) -> usize
    requires { (pos + 2 + 2 * k ≤ first) × (first ≤ end) × (end ≤ length area.old) × (first ≤ pos + 2 + 2 * k + 262144) }
    ensures { ClosedSet area.old pos k first end area.new result }
{
    if k == 0 {
        return 0;
    }
    let at = put(area, pos, k);
    close_up(area, at, k, first, end)
}

// Whether the `n` sets, whose offsets stand from `slots` on, have more than one member for each eight bytes of a source of 1,024 bytes or more. Then they share members, and it pays to remember which of these go.
pub fn crowded(src: &[u8], slots: usize, n: usize) -> bool
    requires { (slots < 65536) × (n < 65536) }
{
    if src.len() < 1024 {
        return false;
    }
    let most = src.len() / 8;
    let mut members = 0;
    for i in 0..n {
        let at = word_at(src, slots + 2 * i);
        members += word_at(src, at);
        if most < members {
            return true;
        }
    }
    false
}
