// The classes of the retained glyphs, in cells: one for each whose class is not 0, its new number times 65,536, plus the class, ascending.
// Map and class table both ascend, so that one walk over both finds the classes: each search begins where the last one ended, and halves. It costs the retained glyphs that have a class other than 0 and the stretches of one class that are met, never the glyphs of a run or of a range.
#![tactic(auto)]

ghost use Rattle.std.specs.Prelude.{◌≡◌, ◌||◌, ◌+◌, ◌≤◌, ◌<◌, eqb};
ghost use Rattle.meaning.specs.Maps.{glyph_entries};
ghost use Rattle.glyph_runs.specs.Runs.{GlyphMap};
ghost use Rattle.class_stretches.specs.Tables.{classes_at, NullOrSound};
ghost use Rattle.class_lists.specs.Listed.{PutRun, ToFill, Filled, Passes, Listed};

use class_stretches::{Stretch, stretch_from};
use glyph_runs::{count_runs, reach, run_at};

// Where a walk stands: at the first run that is not done, and behind the cells that are.
#[derive(Clone, Copy)]
pub struct Place {
    pub run: usize,
    pub cell: usize,
}

// What was listed: how many cells, a class that none is above, and whether a retained glyph holds class 0.
#[derive(Clone, Copy)]
pub struct ClassList {
    pub len: usize,
    pub high: usize,
    pub zero: bool,
}

// New numbers in step, `n` from `new` on, each with the class, in the cells from `cell` on, if there is room for them all; the cell after them.
fn put_run(t: &mut [u32], cell: usize, new: usize, n: usize, class: usize) -> usize
    requires { (cell < 0x2_0000_0000_0000) × (new + n ≤ 65536) × (class < 65536) }
    ensures { PutRun t.old t.new cell new n class result }
{
    let past = cell + n;
    if t.len() < past {
        return past;
    }
    for i in 0..n {
        t[cell + i] = ((new + i) * 65536 + class) as u32;
    }
    past
}

// The retained glyphs of a stretch, which begins with the glyph and holds a class other than 0, in the cells from `cell` on. The first of them is in the run `run`.
fn fill(
    glyphs: &[u8],
    form: usize,
    run: usize,
    glyph: usize,
    found: Stretch,
    t: &mut [u32],
    cell: usize,
) -> Place
    requires { ToFill form glyphs.now run glyph found cell }
    ensures { Filled form glyphs.now glyph found t.old t.new cell result }
{
    let n = count_runs(glyphs, form);
    let end = found.last + 1;
    let mut from = glyph;
    let mut to = cell;
    for e in run..n {
        let r = run_at(glyphs, form, e);
        let first = r.old.max(from);
        if end <= first {
            return Place { run: e, cell: to };
        }
        let past = r.old + r.count;
        let new = r.new + (first - r.old);
        if end < past {
            to = put_run(t, to, new, end - first, found.class);
            return Place { run: e, cell: to };
        }
        to = put_run(t, to, new, past - first, found.class);
        from = past;
    }
    Place { run: n, cell: to }
}

// The same for any class: where it is 0, nothing is listed, and the walk goes on behind the stretch.
fn list_stretch(
    glyphs: &[u8],
    form: usize,
    run: usize,
    glyph: usize,
    found: Stretch,
    t: &mut [u32],
    cell: usize,
) -> Place
    requires { ToFill form glyphs.now run glyph found cell }
    ensures { Passes form glyphs.now glyph found t.old t.new cell result }
{
    if found.class == 0 {
        return Place {
            run: reach(glyphs, form, run, found.last + 1),
            cell,
        };
    }
    fill(glyphs, form, run, glyph, found, t, cell)
}

// Whether class 0 was met, with one class more.
fn met_zero(zero: bool, class: usize) -> bool
    ensures { result ≡ zero || eqb class 0 }
{
    if zero {
        return true;
    }
    class == 0
}

// The classes of the retained glyphs in the class table at `at`, which may be null, at 0, from `list` on, if there is room for them all.
pub fn list_classes(
    src: &[u8],
    at: usize,
    glyphs: &[u8],
    form: usize,
    t: &mut [u32],
    list: usize,
) -> ClassList
    requires { NullOrSound src.now at × GlyphMap form glyphs.now × (list < 0x1_0000_0000_0000) }
    ensures { Listed (classes_at src.now at) (glyph_entries form glyphs.now) t.old t.new list result }
{
    let n = count_runs(glyphs, form);
    let mut high = 0;
    let mut zero = false;
    let mut next = 0;
    let mut from = 0;
    let mut run = 0;
    let mut cell = list;
    // A while: each step passes the runs of a stretch.
    while run < n {
        let r = run_at(glyphs, form, run);
        let glyph = r.old.max(from);
        let found = stretch_from(src, at, next, glyph);
        let place = list_stretch(glyphs, form, run, glyph, found, t, cell);
        high = found.class.max(high);
        zero = met_zero(zero, found.class);
        next = found.next;
        from = found.last + 1;
        run = place.run;
        cell = place.cell;
    }
    ClassList {
        len: cell - list,
        high,
        zero,
    }
}
