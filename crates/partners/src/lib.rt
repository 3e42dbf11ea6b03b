// Partners of rules by their numbers: each of the own numbers is paired with an equal one of the others, earliest with earliest. A partner is its rank plus 1; 0 is none.
// `heads` has a cell for each number: the first rank, plus 1, of the others that have this number and are left.
// `links` has two rows of 65,536 cells for partners, and then a cell for each rank of the others: the next rank of its number, plus 1.
#![tactic(auto)]

ghost use Rattle.std.specs.Prelude.{◌≡◌, ◌+◌, ◌≤◌, ◌<◌, length};
ghost use Rattle.partners.specs.Chains.{numbers_in, next_in, next_of, Below, Cleared, Linked, Kept, Paired};

use cells::{cell, put_cell};

// Where the next ranks stand in `links`.
const NEXT: usize = 131072;

// No ranks are left for the first `m` own numbers.
fn clear(own: &[u32], m: usize, heads: &mut [u32])
    requires { m < 65536 }
    ensures { Cleared own.now m heads.new }
{
    for i in 0..m {
        put_cell(heads, cell(own, i), 0);
    }
}

// All ranks of the `n` others are left, by number, ascending: they are linked from the last on.
fn link(own: &[u32], m: usize, others: &[u32], n: usize, heads: &mut [u32], links: &mut [u32])
    requires { (n < 65536) × (131072 + n ≤ length links.old) × Below own.now m (length heads.old) × Cleared own.now m heads.old }
    ensures { Linked own.now m (numbers_in others.now n) 0 heads.new (next_in links.new) × Kept 131072 links.old links.new }
{
    for j in (0..n).rev() {
        let x = cell(others, j);
        put_cell(links, NEXT + j, cell(heads, x));
        put_cell(heads, x, j + 1);
    }
}

// The rank, plus 1, that follows `h` on its chain.
fn next_of(links: &[u32], h: usize) -> usize
    requires { h < 0x1_0000_0000 }
    ensures { (result ≡ next_of (next_in links.now) h) × (result < 0x1_0000_0000) }
{
    if h == 0 {
        return 0;
    }
    cell(links, NEXT + (h - 1))
}

// Each own number in turn takes the first rank that is left of its number: its partner, into the cells of `links` from `at` on.
fn take(
    own: &[u32],
    m: usize,
    others: &[u32],
    n: usize,
    heads: &mut [u32],
    links: &mut [u32],
    at: usize,
)
    requires { (at + m ≤ 131072) × (131072 ≤ length links.old) × Below own.now m (length heads.old) × Linked own.now m (numbers_in others.now n) 0 heads.old (next_in links.old) }
    ensures { Paired own.now m others.now n at links.old links.new }
{
    for i in 0..m {
        let x = cell(own, i);
        let h = cell(heads, x);
        put_cell(links, at + i, h);
        put_cell(heads, x, next_of(links, h));
    }
}

// The partners of the `m` own numbers among the `n` others, into the cells of `links` from `at` on. What stands in `heads` and in the other cells from `at` on before does not matter.
pub fn pair(
    own: &[u32],
    m: usize,
    others: &[u32],
    n: usize,
    heads: &mut [u32],
    links: &mut [u32],
    at: usize,
)
    requires { (m < 65536) × (n < 65536) × (at ≤ 65536) × (131072 + n ≤ length links.old) × Below own.now m (length heads.old) }
    ensures { Paired own.now m others.now n at links.old links.new }
{
    clear(own, m, heads);
    link(own, m, others, n, heads, links);
    take(own, m, others, n, heads, links, at);
}
