// The entries of a new class table, from the classes that are listed in cells and their class map.
#![tactic(auto)]

ghost use Rattle.std.specs.Prelude.{◌≡◌, ◌+◌, ◌-◌, ◌≤◌, ◌<◌, unwrap_or};
ghost use Rattle.cell_maps.specs.Cells.{Inside, folded};
ghost use Rattle.ranked_maps.specs.Mapped.{Entries};

use cell_maps::Map;
use fold::entry;

// The new number of a class, by one reading; 0 if it has none.
fn new_class(t: &[u32], m: Map, class: usize) -> usize
    requires { Inside t.now m }
    ensures { (result ≡ unwrap_or (folded t.now m class) 0) × (result < 65536) }
{
    let e = entry(t, m, class);
    if e / 65536 != class {
        return 0;
    }
    e % 65536
}

// The entries of the new class table, from `list` on, in the place of the `n` classes that are listed there: the new number and the new class of each retained glyph whose new class is not 0, in order; how many. The class map `m` stands behind the list.
pub fn new_entries(t: &mut [u32], list: usize, n: usize, m: Map) -> usize
    requires { Inside t.old m × (list + n ≤ m.at) }
    ensures { Entries t.old t.new list n m result }
{
    let mut k = 0;
    for e in 0..n {
        let cell = t[list + e] as usize;
        let new = new_class(t, m, cell % 65536);
        if new != 0 {
            t[list + k] = (cell / 65536 * 65536 + new) as u32;
            k += 1;
        }
    }
    k
}
