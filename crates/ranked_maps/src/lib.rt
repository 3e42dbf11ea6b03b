// A class map in cells as ranks: marks of the classes that survive, and counts of the marks.
#![tactic(auto)]

ghost use Rattle.std.specs.Prelude.{[], ◌+◌, ◌-◌, ◌≤◌, ◌<◌, length};
ghost use Rattle.ranks.specs.Ranks.{mark_cells};
ghost use Rattle.area.specs.Part.{news};
ghost use Rattle.ranked_maps.specs.Mapped.{ToMap, ToPut, PutToo, with_zero, Numbers};

use bits::{clear_bits, put_bit};
use cell_maps::{Map, RANKED};
use class_lists::ClassList;
use ranks::{CELLS, count_marks};

// The cells of a class map, and how many classes survive.
#[derive(Clone, Copy)]
pub struct ClassMap {
    pub map: Map,
    pub count: usize,
}

// A mark, in the cells from `marks` on, for each class in the `n` cells from `list` on.
fn put_listed(t: &mut [u32], list: usize, n: usize, marks: usize)
    requires { ToPut t.old list n marks }
    ensures { PutToo t.old t.new marks (news t.old list n) }
{
    for e in (0..n).rev() {
        let class = t[list + e] as usize % 65536;
        put_bit(t, marks, class);
    }
}

// A mark for class 0, if it is among the classes.
fn put_zero(t: &mut [u32], marks: usize, zero: bool)
    requires { (marks < 0x1_0000_0000_0000) × (marks + mark_cells ≤ length t.old) }
    ensures { PutToo t.old t.new marks (with_zero zero []) }
{
    if zero {
        put_bit(t, marks, 0);
    }
}

// The map of the classes that are listed in the `l.len` cells from `list` on, and of class 0 if `zero` says so, as ranks, whatever the highest class is: its cells stand from `to` on. The mask is 0 where there are too few cells.
pub fn ranked_map(t: &mut [u32], list: usize, l: ClassList, to: usize, zero: bool) -> ClassMap
    requires { ToMap t.old list l to }
    ensures { Numbers zero t.old t.new list l to result }
{
    if t.len() <= to + RANKED {
        return ClassMap {
            map: Map { at: to, mask: 0 },
            count: 0,
        };
    }
    clear_bits(t, to, CELLS);
    put_listed(t, list, l.len, to);
    put_zero(t, to, zero);
    let count = count_marks(t, to);
    ClassMap {
        map: Map {
            at: to,
            mask: RANKED,
        },
        count,
    }
}
