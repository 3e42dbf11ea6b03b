// Contexts and chained contexts of format 3, written into the area: the header, the records that stay, and what is left of the coverages.
// The area's header has its parts where the source has them, since each row of coverages stays whole.
#![tactic(auto)]

ghost use Rattle.std.specs.Prelude.{true, false};
ghost use Rattle.known_blocks.specs.Book.{packs};
ghost use Rattle.cover_contexts.specs.Context.{Asks, Begins, Writes};

use area::{put, put_three};
use cell_maps::Map;
use cover_parts::{CoverParts, Held, Places};
use cover_rows::{write_counted_row, write_row};
use lookup_records::{write_counted_records, write_records};

// Both maps in cells, the glyph map with its form.
#[derive(Clone, Copy)]
pub struct Cells {
    pub glyphs: Held,
    pub lookups: Map,
}

// A plain context: format, both counts, the offsets, the records that stay, and what is left of the coverages; the place after it, and 0 if nothing is left.
fn write_plain(
    src: &[u8],
    parts: CoverParts,
    glyphs: &[u8],
    cells: Cells,
    t: &mut [u32],
    area: &mut [u8],
    book: &mut [u32],
) -> usize
    requires { Asks false src.now parts glyphs.now cells.glyphs cells.lookups t.old area.old × Begins book.old }
    ensures { Writes (packs book.old) false src.now parts glyphs.now cells.glyphs cells.lookups t.old area.old area.new result }
{
    let at = parts.records.at;
    let p = write_records(src, at, parts.records.len, t, cells.lookups, area, at);
    put_three(area, 0, 3, parts.input.len, (p - at) / 4);
    let places = Places { first: p, pos: p };
    write_row(
        src,
        parts.input,
        glyphs,
        cells.glyphs,
        t,
        area,
        places,
        book,
    )
}

// A chained context: format, and each row with its count; the records that stay with theirs, and what is left of the coverages; the place after it, and 0 if nothing is left.
fn write_chained(
    src: &[u8],
    parts: CoverParts,
    glyphs: &[u8],
    cells: Cells,
    t: &mut [u32],
    area: &mut [u8],
    book: &mut [u32],
) -> usize
    requires { Asks true src.now parts glyphs.now cells.glyphs cells.lookups t.old area.old × Begins book.old }
    ensures { Writes (packs book.old) true src.now parts glyphs.now cells.glyphs cells.lookups t.old area.old area.new result }
{
    let at = parts.records.at;
    let n = parts.records.len;
    let first = write_counted_records(src, at, n, t, cells.lookups, area, at - 2);
    put(area, 0, 3);
    let p = Places { first, pos: first };
    let q = write_counted_row(src, parts.back, glyphs, cells.glyphs, t, area, p, book);
    if q == 0 {
        return 0;
    }
    let p = Places { first, pos: q };
    let r = write_counted_row(src, parts.input, glyphs, cells.glyphs, t, area, p, book);
    if r == 0 {
        return 0;
    }
    let p = Places { first, pos: r };
    write_counted_row(src, parts.ahead, glyphs, cells.glyphs, t, area, p, book)
}

// What is left of a context by coverages, written from the area's start on; the place after it, and 0 if nothing is left. The book has no coverage yet.
pub fn write_context(
    chained: bool,
    src: &[u8],
    parts: CoverParts,
    glyphs: &[u8],
    cells: Cells,
    t: &mut [u32],
    area: &mut [u8],
    book: &mut [u32],
) -> usize
    requires { Asks chained src.now parts glyphs.now cells.glyphs cells.lookups t.old area.old × Begins book.old }
    ensures { Writes (packs book.old) chained src.now parts glyphs.now cells.glyphs cells.lookups t.old area.old area.new result }
{
    if chained {
        return write_chained(src, parts, glyphs, cells, t, area, book);
    }
    write_plain(src, parts, glyphs, cells, t, area, book)
}
