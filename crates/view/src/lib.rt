// A table view: the source and a place in it. Two thin functions over it do the work: `field` reads a field of the table and answers its number,
// and `subtable` moves to the table that an offset field reaches and answers the view of that. Each takes the view apart, and leaves the work to a function on the plain slice.
// For the table at the front of a source, `header` reads a field and `subtable_place` moves, on the plain slice too: callers use these. `set_count` reads the count of a set whose offset may be null.
#![tactic(auto)]

ghost use Rattle.std.specs.Prelude.{◌≡◌, cond, ◌+◌, ◌<◌, eqb};
ghost use Rattle.meaning.specs.Words.{word};

use wire::word_at;

// The source of a table, and the place where the table starts.
#[derive(Clone, Copy)]
pub struct View<'a> {
    pub src: &'a [u8],
    pub at: usize,
}

// Reads the field `i` bytes after `at`; past the end it is 0.
fn field_at(src: &[u8], at: usize, i: usize) -> usize
    ensures { (result ≡ word src.now (at + i)) × (result < 65536) }
{
    if src.len() <= at {
        return 0;
    }
    if src.len() <= i {
        return 0;
    }
    word_at(src, at + i)
}

// Moves to the place that the offset field `i` bytes after `at` reaches: offsets count from `at`.
fn subtable_at(src: &[u8], at: usize, i: usize) -> usize
    ensures { (result ≡ at + word src.now (at + i)) × (result < at + 65536) }
{
    if src.len() <= at {
        return at;
    }
    at + field_at(src, at, i)
}

// The table at the front of a source.
pub fn at_front<'a>(src: &'a [u8]) -> View<'a>
    ensures { (result.src ≡ src.entry) × (result.at ≡ 0) }
{
    View { src, at: 0 }
}

// The place where a table starts.
pub fn place<'a>(v: View<'a>) -> usize
    ensures { result ≡ v.entry.at }
{
    v.at
}

// Reads the field that stands `i` bytes after a table's start.
pub fn field<'a>(v: View<'a>, i: usize) -> usize
    ensures { (result ≡ word v.entry.src.now (v.entry.at + i)) × (result < 65536) }
{
    field_at(v.src, v.at, i)
}

// Moves to the subtable that the offset field `i` bytes after a table's start reaches.
pub fn subtable<'a>(v: View<'a>, i: usize) -> View<'a>
    ensures { (result.src ≡ v.entry.src) × (result.at ≡ v.entry.at + word v.entry.src.now (v.entry.at + i)) × (result.at < v.entry.at + 65536) }
{
    View {
        src: v.src,
        at: subtable_at(v.src, v.at, i),
    }
}

// Reads a field of the table at the front of a source.
pub fn header(src: &[u8], i: usize) -> usize
    ensures { (result ≡ word src.now i) × (result < 65536) }
{
    field(at_front(src), i)
}

// Moves to the subtable that an offset field of the table at the front of a source reaches, and answers its place; that is 0 where the offset is null.
pub fn subtable_place(src: &[u8], i: usize) -> usize
    ensures { (result ≡ word src.now i) × (result < 65536) }
{
    place(subtable(at_front(src), i))
}

// How many members the set at `at` has, by the count at its front; a null one, which stands at 0, has none.
pub fn set_count(src: &[u8], at: usize) -> usize
    ensures { (result ≡ cond (eqb at 0) 0 (word src.now at)) × (result < 65536) }
{
    if at == 0 {
        return 0;
    }
    word_at(src, at)
}
