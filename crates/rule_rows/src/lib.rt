// Rows of numbers in two subtables: compared, and folded into a print. A row's words stand for themselves, or for the numbers that `t` has for them from the cell `base` on.
#![tactic(auto)]

ghost use Rattle.std.specs.Prelude.{◌≡◌, eqb, ◌+◌, ◌*◌, ◌<◌};
ghost use Rattle.meaning.specs.Words.{word};
ghost use Rattle.differences.specs.Entries.{same_list};
ghost use Rattle.rule_rows.specs.Rows.{side_of, number_by, Reads, numbers_of, mix, print_numbers};

use cells::cell;
use wire::word_at;

// Where a row stands: in the left subtable (0) or in the right one, from `at` on; and where `t` has the numbers of its words, if they do not stand for themselves (0).
#[derive(Clone, Copy)]
pub struct Run {
    pub side: usize,
    pub at: usize,
    pub base: usize,
}

// The word at `at` of one of the two subtables.
pub fn word_of(left: &[u8], right: &[u8], side: usize, at: usize) -> usize
    ensures { (result ≡ word (side_of side left.now right.now) at) × (result < 65536) }
{
    if side == 0 {
        return word_at(left, at);
    }
    word_at(right, at)
}

// The `i`-th number of a row.
fn number_at(left: &[u8], right: &[u8], t: &[u32], x: Run, i: usize) -> usize
    requires { Reads x × (i < 0x1_0000_0000) }
    ensures { (result ≡ number_by t.now x.base (word (side_of x.side left.now right.now) (x.at + 2 * i))) × (result < 0x1_0000_0000) }
{
    let w = word_of(left, right, x.side, x.at + 2 * i);
    if x.base == 0 {
        return w;
    }
    cell(t, x.base + w)
}

// Whether the first `n` numbers of two rows are the same.
pub fn same_row(left: &[u8], right: &[u8], t: &[u32], x: Run, y: Run, n: usize) -> bool
    requires { Reads x × Reads y × (n < 0x1_0000_0000) }
    ensures { result ≡ same_list eqb (numbers_of left.now right.now t.now x n) (numbers_of left.now right.now t.now y n) }
{
    for i in 0..n {
        let a = number_at(left, right, t, x, i);
        let b = number_at(left, right, t, y, i);
        if a != b {
            return false;
        }
    }
    true
}

// A number folded into a print.
pub fn mix(h: usize, w: usize) -> usize
    requires { (h < 0x1_0000_0000) × (w < 0x1_0000_0000) }
    ensures { (result ≡ mix h w) × (result < 65536) }
{
    (h * 40503 + w) % 65536
}

// The first `n` numbers of a row, folded into the print `h`.
pub fn print_row(left: &[u8], right: &[u8], t: &[u32], x: Run, n: usize, h: usize) -> usize
    requires { Reads x × (n < 0x1_0000_0000) × (h < 65536) }
    ensures { (result ≡ print_numbers h (numbers_of left.now right.now t.now x n)) × (result < 65536) }
{
    let mut print = h;
    for i in 0..n {
        let w = number_at(left, right, t, x, i);
        print = mix(print, w);
    }
    print
}
