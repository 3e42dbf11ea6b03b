// A book of blocks of one kind that stand in the area one after the other: by it one that is equal to an earlier one is found.
#![tactic(auto)]

ghost use Rattle.std.specs.Prelude.{◌≡◌, ◌+◌, ◌-◌, ◌*◌, ◌≤◌, ◌<◌, length, get_or};
ghost use Rattle.meaning.specs.Words.{words, eq_list};
ghost use Rattle.known_blocks.specs.Book.{start_of, alike, Begun, Noted, Found};

use cells::{cell, put_cell};
use room::HIGHEST;
use wire::word_at;

// Where a block stands, which is 0 if that is too far behind the first, and the place after all blocks.
#[derive(Clone, Copy)]
pub struct Spot {
    pub at: usize,
    pub end: usize,
}

// Where the last cell of a book stands.
pub fn last(book: &[u32]) -> usize
    ensures { result ≡ length book.now - 1 }
{
    if book.len() == 0 {
        return 0;
    }
    book.len() - 1
}

// A book with no block.
pub fn begin(book: &mut [u32])
    ensures { Begun book.old book.new }
{
    put_cell(book, 0, 0);
    let z = last(book);
    put_cell(book, z, 0);
}

// Whether the `n` words from `a` on are those from `b` on.
fn same(area: &[u8], a: usize, b: usize, n: usize) -> bool
    requires { (a + 2 * n < 0x4_0000_0000_0000) × (b + 2 * n < 0x4_0000_0000_0000) }
    ensures { result ≡ eq_list (words area.now a n) (words area.now b n) }
{
    for i in 0..n {
        if word_at(area, a + 2 * i) != word_at(area, b + 2 * i) {
            return false;
        }
    }
    true
}

// Where the i-th block starts; `p`, where all of them end, if there is none.
fn start(book: &[u32], first: usize, p: usize, i: usize) -> usize
    requires { (first ≤ p) × (p < 0x1_0000_0000_0000) }
    ensures { (result ≡ start_of book.now first p i) × (result < 0x2_0000_0000_0000) }
{
    if i < cell(book, 0) {
        return first + 2 * (cell(book, 1 + i) / 65536);
    }
    p
}

// Whether the i-th block is equal to the `n` words at `p`, where all of them end: it is if it has as many words, and the same.
fn is_equal(area: &[u8], book: &[u32], first: usize, p: usize, n: usize, i: usize) -> bool
    requires { (first ≤ p) × (p + 2 * n < 0x1_0000_0000_0000) × (i < 65536) }
    ensures { result ≡ alike area.now book.now first p n i }
{
    let at = start(book, first, p, i);
    if start(book, first, p, i + 1) != at + 2 * n {
        return false;
    }
    same(area, at, p, n)
}

// Where the first block of the book stands that is equal to the `n` words at `p`, where all of them end; `p` if none is.
pub fn find(area: &[u8], book: &[u32], first: usize, p: usize, n: usize) -> usize
    requires { (get_or book.now 0 0 < 65536) × (first ≤ p) × (p + 2 * n < 0x1_0000_0000_0000) }
    ensures { Found area.now book.now first p n result }
{
    let count = cell(book, 0);
    for i in 0..count {
        if is_equal(area, book, first, p, n, i) {
            return start(book, first, p, i);
        }
    }
    p
}

// One block more in the book, `offset` bytes behind the first, if that is not too far.
pub fn note(book: &mut [u32], offset: usize, source: usize)
    requires { (get_or book.old 0 0 < 65536) × (source < 65536) }
    ensures { Noted offset source book.old book.new }
{
    if HIGHEST < offset {
        return;
    }
    let count = cell(book, 0);
    put_cell(book, 1 + count, offset / 2 * 65536 + source);
    put_cell(book, 0, count + 1);
}
