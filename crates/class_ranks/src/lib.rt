// A class map in cells, one for each class. `ranked_maps` has the other form, for classes that are too high for that.
#![tactic(auto)]

ghost use Rattle.std.specs.Prelude.{◌≡◌, cond, ◌+◌, ◌-◌, ◌<◌, set};
ghost use Rattle.cell_maps.specs.Cells.{ranked_mask};
ghost use Rattle.area.specs.Part.{news};
ghost use Rattle.ranked_maps.specs.Mapped.{Direct, ToMark, Marked, Ranked, ToMap, Held, Numbers};

use cell_maps::Map;
use class_lists::ClassList;
use fold_pairs::{clear, power};
use ranked_maps::ClassMap;

// An entry for each class in the `g` cells from `list` on, with the new number 0 for now.
fn mark_held(t: &mut [u32], list: usize, g: usize, m: Map)
    requires { ToMark t.old m list g }
    ensures { Marked t.old t.new m (news t.old list g) }
{
    for e in (0..g).rev() {
        let class = t[list + e] as usize % 65536;
        t[m.at + class] = (class * 65536) as u32;
    }
}

// The new number of each class that has an entry: its rank, from 0; how many they are.
fn rank(t: &mut [u32], m: Map) -> usize
    requires { Direct t.old m }
    ensures { Ranked t.old t.new m result }
{
    let end = m.mask + 1;
    let mut count = 0;
    for class in 0..end {
        let cell = m.at + class;
        if t[cell] as usize / 65536 == class {
            t[cell] = (class * 65536 + count) as u32;
            count += 1;
        }
    }
    count
}

// The cells from `to` on, one for each class, with an entry for each that is listed in the `l.len` cells from `list` on. The mask is 0 where there are too few cells.
fn held_map(t: &mut [u32], list: usize, l: ClassList, to: usize) -> Map
    requires { ToMap t.old list l to × (l.high < ranked_mask) }
    ensures { Held t.old t.new list l to result }
{
    let m = Map {
        at: to,
        mask: power(l.high + 1) - 1,
    };
    if t.len() <= to + m.mask {
        return Map { at: to, mask: 0 };
    }
    clear(t, m);
    mark_held(t, list, l.len, m);
    m
}

// An entry for class 0, if it is among the classes.
fn mark_zero(t: &mut [u32], m: Map, zero: bool)
    requires { Direct t.old m }
    ensures { t.new ≡ cond zero (set t.old m.at 0) t.old }
{
    if zero {
        let at = m.at;
        t[at] = 0;
    }
}

// The map of the classes that are listed in the `l.len` cells from `list` on, and of class 0 if `zero` says so, where the highest class is not too high for a cell for each: its cells stand from `to` on. The mask is 0 where there are too few cells.
pub fn direct_map(t: &mut [u32], list: usize, l: ClassList, to: usize, zero: bool) -> ClassMap
    requires { ToMap t.old list l to × (l.high < ranked_mask) }
    ensures { Numbers zero t.old t.new list l to result }
{
    let m = held_map(t, list, l, to);
    if m.mask == 0 {
        return ClassMap { map: m, count: 0 };
    }
    mark_zero(t, m, zero);
    let count = rank(t, m);
    ClassMap { map: m, count }
}
