// Numbers for the classes of two class tables, equal exactly if the same ids hold the classes: a class of the one is so compared with a class of the other in one step.
// Both tables are walked by stretches of ids that hold one class, so that a walk costs their ranges, not the 65,536 ids.
#![tactic(auto)]

ghost use Rattle.std.specs.Prelude.{◌≡◌, ◌+◌, ◌≤◌, ◌<◌, length};
ghost use Rattle.meaning.specs.Parts.{class_in};
ghost use Rattle.class_stretches.specs.Tables.{table_at, NullOrSound};
ghost use Rattle.class_lists.specs.Elsewhere.{Elsewhere};
ghost use Rattle.class_strays.specs.Numbered.{Cleared, first_put, Lowest, ClassesNumbered};

use cells::{cell, put_cell};
use class_strays::mark_strays;
use class_stretches::stretch_from;

// No class has an id yet: 0 in the 65,536 cells from `base` on.
fn clear(t: &mut [u32], base: usize)
    requires { base + 65536 ≤ length t.old }
    ensures { Cleared 65536 t.old t.new base }
{
    t[base..base + 65536].fill(0);
}

// The number `v` into the cell `i`, if the cell has none yet.
fn put_first(t: &mut [u32], i: usize, v: usize)
    requires { v < 0x1_0000_0000 }
    ensures { t.new ≡ first_put t.old i v }
{
    if cell(t, i) == 0 {
        put_cell(t, i, v);
    }
}

// The lowest id of each class of the class table at `at`, plus 1, in the 65,536 cells from `base` on; 0 for a class that no id holds.
fn put_lowest(src: &[u8], at: usize, t: &mut [u32], base: usize)
    requires { NullOrSound src.now at × (base + 65536 ≤ length t.old) }
    ensures { Lowest (class_in (table_at src.now at)) 65536 t.old t.new base }
{
    clear(t, base);
    let mut next = 0;
    let mut g = 0;
    // A while: each step passes a stretch.
    while g < 65536 {
        let s = stretch_from(src, at, next, g);
        put_first(t, base + s.class, g + 1);
        next = s.next;
        g = s.last + 1;
    }
}

// The numbers of the classes of the left class table at `at` and of the right one at `to`: those of the left classes in the 65,536 cells from `base` on, those of the right ones in the next 65,536. With a null table, at 0, each id holds class 0.
pub fn number_classes(left: &[u8], at: usize, right: &[u8], to: usize, t: &mut [u32], base: usize)
    requires { NullOrSound left.now at × NullOrSound right.now to × (base + 131072 ≤ length t.old) }
    ensures { ClassesNumbered (table_at left.now at) (table_at right.now to) t.new base × Elsewhere base (base + 131072) t.old t.new }
{
    put_lowest(left, at, t, base);
    put_lowest(right, to, t, base + 65536);
    mark_strays(left, at, right, to, t, base);
}
