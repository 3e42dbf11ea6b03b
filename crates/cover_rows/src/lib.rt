// Contexts by coverages: the rows of offsets that reach coverages, of which what is left is written into the area.
#![tactic(auto)]

ghost use Rattle.std.specs.Prelude.{◌-◌, ◌≤◌};
ghost use Rattle.std.proofs.lemmas.List.Edits.{sets};
ghost use Rattle.meaning.specs.Words.{bytes2};
ghost use Rattle.meaning.specs.Maps.{glyph_entries};
ghost use Rattle.cover_parts.specs.Rows.{WritesRow, left_at, row_left, LaysLeft};

use area::put;
use cover_parts::{Held, Places, Row, Slot};
use cover_slots::write_slot;
use wire::word_inside;

// What is left of the coverages that a row reaches: their offsets where the row stands, and themselves from the next place on; the place after them, and 0 if one of them is null or left with no glyph.
pub fn write_row(
    src: &[u8],
    row: Row,
    glyphs: &[u8],
    held: Held,
    t: &mut [u32],
    area: &mut [u8],
    places: Places,
    book: &mut [u32],
) -> usize
    requires { WritesRow src.now row glyphs.now held t.old area.old places book.old }
    ensures { LaysLeft (left_at (glyph_entries held.form glyphs.now) src.now) (row_left (glyph_entries held.form glyphs.now) src.now row) held.map t.old t.new area.old row.at places area.new result book.old book.new }
{
    let mut p = places.pos;
    for i in 0..row.len {
        let at = row.at + 2 * i;
        let cover = word_inside(src, at);
        if cover == 0 {
            return 0;
        }
        let next = Places {
            first: places.first,
            pos: p,
        };
        p = write_slot(src, Slot { at, cover }, glyphs, held, t, area, next, book);
        if p == 0 {
            return 0;
        }
    }
    p
}

// The count of a row, and what is left of the coverages that the row reaches, as `write_row` says.
pub fn write_counted_row(
    src: &[u8],
    row: Row,
    glyphs: &[u8],
    held: Held,
    t: &mut [u32],
    area: &mut [u8],
    places: Places,
    book: &mut [u32],
) -> usize
    requires { WritesRow src.now row glyphs.now held t.old area.old places book.old × (2 ≤ row.at) }
    ensures { LaysLeft (left_at (glyph_entries held.form glyphs.now) src.now) (row_left (glyph_entries held.form glyphs.now) src.now row) held.map t.old t.new (sets area.old (row.at - 2) (bytes2 row.len)) row.at places area.new result book.old book.new }
{
    put(area, row.at - 2, row.len);
    write_row(src, row, glyphs, held, t, area, places, book)
}
