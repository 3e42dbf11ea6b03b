// Listed maps of pairs in cells: how many cells they take, and how they are laid.
#![tactic(auto)]

ghost use Rattle.std.specs.Prelude.{true, [], ◌+◌, ◌*◌, ◌/◌, ◌<◌, ◌≤◌};
ghost use Rattle.cell_maps.specs.Cells.{Inside, Odd, Holds, Kept};
ghost use Rattle.cell_maps.specs.Laid.{Power, Next, Added, LaidIn, Laid};

use cell_maps::Map;
use fold::entry;
use wire::word_inside;

// No entries in the cells of a map.
pub fn clear(t: &mut [u32], m: Map)
    requires { Inside t.old m × Odd m }
    ensures { Holds t.new m [] × Kept m.at t.old t.new }
{
    let end = m.at + m.mask + 1;
    let at = m.at;
    t[at..end].fill(0);
    t[at] = 65536;
}

// One entry more, if its cell has none yet.
pub fn add(t: &mut [u32], m: Map, old: usize, new: usize) -> bool
    requires { Inside t.old m × (old < 65536) × (new < 65536) }
    ensures { Added t.old t.new m old new result }
{
    let cell = m.at + (old & m.mask);
    let key = t[cell] as usize / 65536;
    if key & m.mask == old & m.mask {
        return false;
    }
    t[cell] = (old * 65536 + new) as u32;
    true
}

// Whether each entry of the listed map has a cell of its own; then they stand there.
fn lay_in(list: &[u8], t: &mut [u32], m: Map) -> bool
    requires { Inside t.old m × Odd m }
    ensures { LaidIn list.now t.old t.new m result }
{
    clear(t, m);
    for i in 0..list.len() / 4 {
        let old = word_inside(list, 4 * i);
        let new = word_inside(list, 4 * i + 2);
        if !add(t, m, old, new) {
            return false;
        }
    }
    true
}

// The least power of two that is `n` or more, and 2 or more.
pub fn power(n: usize) -> usize
    requires { n < 0x1_0000_0000_0000 }
    ensures { Next n result }
{
    n.max(2).next_power_of_two()
}

// One more than the last old number of a listed map.
fn past_last(list: &[u8]) -> usize
    ensures { result ≤ 65536 }
{
    if list.len() < 4 {
        return 1;
    }
    word_inside(list, list.len() - 4) + 1
}

// How many cells to lay a listed map in at first: 16 or more for each entry of a short one, and no more than one for each number up to its last.
pub fn cells(list: &[u8]) -> usize
    ensures { Power result × (result ≤ 65536) }
{
    let all = power(past_last(list));
    if 64 < list.len() {
        return all;
    }
    let few = power(4 * list.len());
    if all < few {
        return all;
    }
    few
}

// The listed map, laid into `t` from `at` on: in twice as many cells as long as two entries have the same one. The mask is 0 where there is no room.
pub fn lay(list: &[u8], t: &mut [u32], at: usize) -> Map
    requires { at < 0x1_0000_0000_0000 }
    ensures { Laid list.now t.old t.new at result }
{
    let mut n = cells(list);
    while at + n <= t.len() {
        let m = Map { at, mask: n - 1 };
        if lay_in(list, t, m) {
            return m;
        }
        n = 2 * n;
    }
    Map { at, mask: 0 }
}
