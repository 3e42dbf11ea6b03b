// The class of a glyph in a class table, and how far the glyphs that follow it hold the same class.
#![tactic(auto)]

ghost use Rattle.std.specs.Prelude.{◌≡◌, ◌+◌, ◌≤◌, ◌<◌};
ghost use Rattle.meaning.specs.Parts.{class_in};
ghost use Rattle.class_stretches.specs.Tables.{table_at, NullOrSound, array_at, ArrayInside};
ghost use Rattle.class_stretches.specs.Stretches.{Ranges, Passed, Ended, Stretched, Ranged, Hint, Found};

use wire::word_inside;

// Glyphs up to `last` that hold one class. The search for a later glyph begins with the class range `next`.
#[derive(Clone, Copy)]
pub struct Stretch {
    pub last: usize,
    pub class: usize,
    pub next: usize,
}

// The stretch that begins with the glyph in the class array of the table at `at`: class 0 before the array and past it, and in it one glyph.
fn array_stretch(src: &[u8], at: usize, glyph: usize) -> Stretch
    requires { ArrayInside src.now at × (glyph < 65536) }
    ensures { Stretched (array_at src.now at) glyph result }
{
    let first = word_inside(src, at + 2);
    if glyph < first {
        return Stretch {
            last: first - 1,
            class: 0,
            next: 0,
        };
    }
    let i = glyph - first;
    if word_inside(src, at + 4) <= i {
        return Stretch {
            last: 65535,
            class: 0,
            next: 0,
        };
    }
    Stretch {
        last: glyph,
        class: word_inside(src, at + 6 + 2 * i),
        next: 0,
    }
}

// The first of the `n` class ranges from `at` on that ends at the glyph or later; `n` if none does. Those before `from` end before it.
// It is mostly close: the search looks at four ranges one by one, then it halves.
fn reach_range(src: &[u8], at: usize, n: usize, from: usize, glyph: usize) -> usize
    requires { Ranges src.now at n × (from ≤ n) × Passed src.now at glyph from }
    ensures { Ended src.now at n glyph result }
{
    halving::reach(src, at + 2, 6, n, from, from + 4, glyph)
}

// The stretch that begins with the glyph, by the first of the `n` class ranges from `at` on that ends there or later. Those before `from` end before it.
fn range_stretch(src: &[u8], at: usize, n: usize, from: usize, glyph: usize) -> Stretch
    requires { Ranges src.now at n × (from ≤ n) × Passed src.now at glyph from × (glyph < 65536) }
    ensures { Ranged src.now at n glyph result }
{
    let i = reach_range(src, at, n, from, glyph);
    if n <= i {
        return Stretch {
            last: 65535,
            class: 0,
            next: i,
        };
    }
    let first = word_inside(src, at + 6 * i);
    if glyph < first {
        return Stretch {
            last: first - 1,
            class: 0,
            next: i,
        };
    }
    Stretch {
        last: word_inside(src, at + 6 * i + 2),
        class: word_inside(src, at + 6 * i + 4),
        next: i + 1,
    }
}

// The stretch that begins with the glyph in the class table at `at`; with a null table, at 0, all glyphs hold class 0. The class ranges before `next` end before the glyph.
pub fn stretch_from(src: &[u8], at: usize, next: usize, glyph: usize) -> Stretch
    requires { NullOrSound src.now at × Hint src.now at glyph next × (glyph < 65536) }
    ensures { Found src.now at glyph result }
{
    if at == 0 {
        return Stretch {
            last: 65535,
            class: 0,
            next: 0,
        };
    }
    if word_inside(src, at) == 1 {
        return array_stretch(src, at, glyph);
    }
    let n = word_inside(src, at + 2);
    range_stretch(src, at + 4, n, next, glyph)
}

// The class of a glyph in the class table at `at`; with a null table, at 0, it is class 0.
pub fn class_of(src: &[u8], at: usize, glyph: usize) -> usize
    requires { NullOrSound src.now at × (glyph < 65536) }
    ensures { (result ≡ class_in (table_at src.now at) glyph) × (result < 65536) }
{
    let found = stretch_from(src, at, 0, glyph);
    found.class
}
