// A book of blocks, asked by a place of the source: where the block stands that came from there.
#![tactic(auto)]

ghost use Rattle.std.specs.Prelude.{◌+◌, ◌-◌, ◌*◌, ◌<◌, get_or};
ghost use Rattle.known_blocks.specs.Book.{Again};

use cells::cell;
use known_blocks::last;

// Where the block stands that was written from this place of the source; 0 if the book has none from there.
fn among(book: &[u32], first: usize, source: usize) -> usize
    requires { (get_or book.now 0 0 < 65536) × (first < 0x1_0000_0000_0000) }
    ensures { Again book.now first source result }
{
    let count = cell(book, 0);
    for i in 0..count {
        let block = cell(book, 1 + i);
        if block % 65536 == source {
            return first + 2 * (block / 65536);
        }
    }
    0
}

// Where the block stands that this further place of the source is known to lead to; 0 if it is not known.
fn elsewhere(book: &[u32], first: usize, source: usize) -> usize
    requires { (get_or book.now 0 0 < 65536) × (first < 0x1_0000_0000_0000) }
    ensures { Again book.now first source result }
{
    let blocks = cell(book, 0);
    let count = cell(book, last(book));
    for i in 0..count {
        if book.len() < 3 + blocks + i {
            return 0;
        }
        let further = cell(book, book.len() - 2 - i);
        if further % 65536 == source {
            return first + 2 * (further / 65536);
        }
    }
    0
}

// Where the block stands that this place of the source is known to lead to; 0 if it is not known.
pub fn again(book: &[u32], first: usize, source: usize) -> usize
    requires { (get_or book.now 0 0 < 65536) × (first < 0x1_0000_0000_0000) }
    ensures { Again book.now first source result }
{
    if book.len() < 2 {
        return 0;
    }
    let at = among(book, first, source);
    if at != 0 {
        return at;
    }
    elsewhere(book, first, source)
}
