// Marks of the numbers from 0 on, one bit each, 32 to a cell, in the cells from `at` on. A number whose cell is past the end has no mark and gets none.
#![tactic(auto)]

ghost use Rattle.std.specs.Prelude.{◌≡◌, ◌+◌, ◌≤◌, ◌<◌, length};
ghost use Rattle.bits.specs.Bits.{marked, Put, Cleared};

use cells::{cell, put_cell};

// Whether the number `x` has a mark.
pub fn has_bit(t: &[u32], at: usize, x: usize) -> bool
    requires { at < 0x4000_0000_0000_0000 }
    ensures { result ≡ marked t.now at x }
{
    let i = at + x / 32;
    if t.len() <= i {
        return false;
    }
    (cell(t, i) >> (x % 32)) % 2 == 1
}

// The number `x` gets a mark, where its cell is there.
pub fn put_bit(t: &mut [u32], at: usize, x: usize)
    requires { at < 0x1_0000_0000_0000 }
    ensures { Put at x t.old t.new }
{
    let i = at + x / 32;
    if t.len() <= i {
        return;
    }
    let others = cell(t, i);
    put_cell(t, i, others | (1 << (x % 32)));
}

// No number has a mark in the `n` cells.
pub fn clear_bits(t: &mut [u32], at: usize, n: usize)
    requires { at + n ≤ length t.old }
    ensures { Cleared at n t.old t.new }
{
    t[at..at + n].fill(0);
}
