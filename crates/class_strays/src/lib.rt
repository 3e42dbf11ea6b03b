// From the lowest ids of the classes of two class tables to the classes' numbers, in cells: classes that share an id and whose lowest ids differ stray.
// Both tables are walked by stretches of ids that hold one class.
#![tactic(auto)]

ghost use Rattle.std.specs.Prelude.{◌≡◌, ◌+◌, ◌≤◌, ◌<◌, length};
ghost use Rattle.meaning.specs.Parts.{class_in};
ghost use Rattle.class_stretches.specs.Tables.{table_at, NullOrSound};
ghost use Rattle.class_lists.specs.Elsewhere.{Elsewhere};
ghost use Rattle.class_strays.specs.Numbered.{Holding, lowest_in, compared, Marked};

use cells::{cell, put_cell};
use class_stretches::{Stretch, stretch_from};

// The stretch that holds the glyph: the last one, if it reaches so far, or else the one that begins with the glyph.
fn onward(src: &[u8], at: usize, last: Stretch, glyph: usize) -> Stretch
    requires { NullOrSound src.now at × Holding src.now at glyph last × (glyph < 65536) }
    ensures { Holding src.now at glyph result × (glyph ≤ result.last) }
{
    if glyph <= last.last {
        return last;
    }
    stretch_from(src, at, last.next, glyph)
}

// The lowest id of a class, plus 1, by its cell: a class that strays has 65,536 or 131,072 more.
fn lowest_in(v: usize) -> usize
    requires { v < 0x1_0000_0000 }
    ensures { (result ≡ lowest_in v) × (result ≤ 65536) }
{
    if v <= 65536 {
        return v;
    }
    (v - 1) % 65536 + 1
}

// The left class `c` and the right class `d`, which one id holds: both stray if their lowest ids differ.
fn compare_lowest(t: &mut [u32], base: usize, c: usize, d: usize)
    requires { (base + 131072 ≤ length t.old) × (c < 65536) × (d < 65536) }
    ensures { t.new ≡ compared t.old (base + c) (base + 65536 + d) }
{
    let i = base + c;
    let j = base + 65536 + d;
    let l = lowest_in(cell(t, i));
    let r = lowest_in(cell(t, j));
    if l != r {
        put_cell(t, i, l + 65536);
        put_cell(t, j, r + 131072);
    }
}

// From the lowest ids of the classes to their numbers: a class strays if one of its ids has, in the other table, a class with another lowest id.
pub fn mark_strays(left: &[u8], at: usize, right: &[u8], to: usize, t: &mut [u32], base: usize)
    requires { NullOrSound left.now at × NullOrSound right.now to × (base + 131072 ≤ length t.old) × Marked (class_in (table_at left.now at)) (class_in (table_at right.now to)) 65536 0 t.old base }
    ensures { Marked (class_in (table_at left.now at)) (class_in (table_at right.now to)) 65536 65536 t.new base × Elsewhere base (base + 131072) t.old t.new }
{
    let mut l = stretch_from(left, at, 0, 0);
    let mut r = stretch_from(right, to, 0, 0);
    let mut g = 0;
    // A while: each step passes what two stretches share.
    while g < 65536 {
        l = onward(left, at, l, g);
        r = onward(right, to, r, g);
        compare_lowest(t, base, l.class, r.class);
        g = l.last.min(r.last) + 1;
    }
}
