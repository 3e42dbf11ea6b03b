// Blocks of one kind that are written into the area one after the other, from `first` on, and a book of them, by which one that is equal to an earlier one is found.
// The first cell of a book says how many blocks are in it. A cell follows for each: how many words stand before it, times 65,536, plus the place of the source that it came from.
// The last cell says how many further places of the source are known to lead to one of them. From there on backwards each has a cell of the same form, as long as the blocks leave room.
// A book of one cell has no block: then each is written, as the plain layout has them.
#![tactic(auto)]

ghost use Rattle.std.specs.Prelude.{◌+◌, ◌-◌, ◌*◌, ◌≤◌, ◌<◌, get_or};
ghost use Rattle.known_blocks.specs.Book.{NotedPlace, Fresh, Settled};

use cells::{cell, put_cell};
use known_blocks::{Spot, find, last, note};
use room::HIGHEST;

// The cells of a book that is enough for sets or coverages: none of these has less than two words, and none starts more than 65,535 bytes behind the first.
pub const BOOK: usize = 16386;

// One place of the source more that leads to the block `offset` bytes behind the first, if there is room for it.
fn note_place(book: &mut [u32], offset: usize, source: usize)
    requires { (get_or book.old 0 0 < 65536) × (source < 65536) }
    ensures { NotedPlace offset source book.old book.new }
{
    let count = cell(book, 0);
    let z = last(book);
    let n = cell(book, z);
    if HIGHEST < offset {
        return;
    }
    if HIGHEST < n {
        return;
    }
    if book.len() < 3 + count + n {
        return;
    }
    put_cell(book, z - 1 - n, offset / 2 * 65536 + source);
    put_cell(book, z, n + 1);
}

// A block that is new: it stands at `p`, up to `q`, unless that is too far behind the first.
fn fresh(first: usize, p: usize, q: usize) -> Spot
    requires { first ≤ p }
    ensures { Fresh first p q result }
{
    if HIGHEST < p - first {
        return Spot { at: 0, end: q };
    }
    Spot { at: p, end: q }
}

// The block that was written at `p`, up to `q`, from this place of the source, behind those of the book: if one of these is equal, then it is that one, and the place after all is `p` again; else it is noted, and the place after all is `q`.
pub fn settle(
    area: &[u8],
    first: usize,
    p: usize,
    q: usize,
    source: usize,
    book: &mut [u32],
) -> Spot
    requires { (get_or book.old 0 0 < 65536) × (first ≤ p) × (p ≤ q) × (q < 0x1_0000_0000) × (source < 65536) }
    ensures { Settled area.now first p q source book.old book.new result }
{
    if book.len() < 2 {
        return fresh(first, p, q);
    }
    let n = (q - p) / 2;
    let at = find(area, book, first, p, n);
    if at != p {
        note_place(book, at - first, source);
        return Spot { at, end: p };
    }
    note(book, p - first, source);
    fresh(first, p, q)
}
