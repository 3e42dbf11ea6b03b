// Class maps: the classes that survive, which are listed in cells, and their new numbers, laid into other cells.
#![tactic(auto)]

ghost use Rattle.std.specs.Prelude.{◌≡◌, ◌+◌, ◌-◌, ◌<◌};
ghost use Rattle.meaning.specs.Cut.{class_map, second_map};
ghost use Rattle.ranked_maps.specs.Present.{top_of};
ghost use Rattle.ranked_maps.specs.Mapped.{ToMap, Numbers, Mapped};

use cell_maps::{Map, RANKED};
use class_lists::ClassList;
use class_ranks::direct_map;
use fold::entry;
use ranked_maps::{ClassMap, ranked_map};

// The most cells that a class map takes: one for each class are at most 4,096, and ranks take 4,097, of which one is spare.
pub const MOST: usize = RANKED + 1;

// The map of the classes that are listed in the `l.len` cells from `list` on, and of class 0 if `zero` says so, in cells from `to` on, in the form that takes fewer. The mask is 0 where there are too few cells.
fn listed_map(t: &mut [u32], list: usize, l: ClassList, to: usize, zero: bool) -> ClassMap
    requires { ToMap t.old list l to }
    ensures { Numbers zero t.old t.new list l to result }
{
    if l.high < RANKED {
        return direct_map(t, list, l, to, zero);
    }
    ranked_map(t, list, l, to, zero)
}

// The class map of the classes that are listed in the `l.len` cells from `list` on: its cells stand from `to` on, behind the list. The mask is 0 where there are too few cells.
pub fn class_map(t: &mut [u32], list: usize, l: ClassList, to: usize) -> ClassMap
    requires { ToMap t.old list l to }
    ensures { Mapped class_map t.old t.new list l to result }
{
    listed_map(t, list, l, to, l.zero)
}

// The same map with class 0 always among the classes, as second classes of pairs are counted.
pub fn pinned_map(t: &mut [u32], list: usize, l: ClassList, to: usize) -> ClassMap
    requires { ToMap t.old list l to }
    ensures { Mapped second_map t.old t.new list l to result }
{
    listed_map(t, list, l, to, true)
}

// The highest number that a class map can have an entry for: its mask, or 65,535 where the mask is even.
pub fn top(m: Map) -> usize
    ensures { result ≡ top_of m }
{
    if m.mask % 2 == 0 {
        return 65535;
    }
    m.mask
}
