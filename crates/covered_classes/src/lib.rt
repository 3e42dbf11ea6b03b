// The classes that covered glyphs hold, marked by a bit each.
#![tactic(auto)]

ghost use Rattle.std.specs.Prelude.{◌≡◌, ◌+◌, ◌-◌, ◌≤◌, ◌<◌, length};
ghost use Rattle.area.specs.Part.{notes};
ghost use Rattle.covered_classes.specs.Covered.{first_class, Passes, Coverable, Met, Covered};

use bits::{clear_bits, put_bit};
use fold::entry;

// The first of the `n` listed cells from `list` on, from the `from`-th on, whose new number is `new` or more; `n` if none is.
fn pass_below(t: &[u32], list: usize, n: usize, from: usize, new: usize) -> usize
    requires { (list + n ≤ length t.now) × (from ≤ n) }
    ensures { Passes t.now list n from new result }
{
    for k in from..n {
        if new <= t[list + k] as usize / 65536 {
            return k;
        }
    }
    n
}

// The class of the k-th of the `n` listed cells from `list` on, if that is of the new number `new`; else class 0, which is not listed.
fn class_at(t: &[u32], list: usize, n: usize, k: usize, new: usize) -> usize
    requires { list + n ≤ length t.now }
    ensures { result ≡ first_class new (notes t.now (list + k) (n - k)) }
{
    if n <= k {
        return 0;
    }
    let cell = t[list + k] as usize;
    if cell / 65536 != new {
        return 0;
    }
    cell % 65536
}

// A mark, in the cells from `marks` on, for the class of each retained glyph whose new number is noted in the `n` cells from `noted` on: notes and the `len` listed cells from `list` on ascend, so that one walk over both finds them.
fn mark_met(t: &mut [u32], noted: usize, n: usize, list: usize, len: usize, marks: usize)
    requires { Coverable t.old noted n list len marks }
    ensures { Met t.old t.new noted n list len marks }
{
    let mut k = 0;
    for j in 0..n {
        let new = t[noted + j] as usize % 65536;
        k = pass_below(t, list, len, k, new);
        let class = class_at(t, list, len, k, new);
        put_bit(t, marks, class);
    }
}

// Marks, one bit each from the cell `marks` on, of the classes that a coverage's retained glyphs hold; the first `cells` cells are cleared before, so that no other class that has a bit there is marked.
// The new numbers of these glyphs are noted in the `n` cells from `noted` on; the classes of all retained glyphs, if not 0, are listed in the `len` cells from `list` on.
pub fn mark_covered(
    t: &mut [u32],
    noted: usize,
    n: usize,
    list: usize,
    len: usize,
    marks: usize,
    cells: usize,
)
    requires { Coverable t.old noted n list len marks × (marks + cells ≤ length t.old) }
    ensures { Covered t.old t.new noted n list len marks cells }
{
    clear_bits(t, marks, cells);
    mark_met(t, noted, n, list, len, marks);
}
