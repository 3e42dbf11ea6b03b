// Format 3 of contexts, written into the area in the layout that is asked for: plain, or packed by a book of its coverages.
#![tactic(auto)]

ghost use Rattle.std.specs.Prelude.{true, ◌-◌};
ghost use Rattle.cover_contexts.specs.Context.{Asks, Writes};
ghost use Rattle.cover_layouts.specs.Cutting.{is_packed};

use cover_contexts::{Cells, write_context};
use cover_parts::CoverParts;
use known_blocks::begin;
use repeats::BOOK;

// What is left of a context by coverages, written from the area's start on, with no coverage written twice, and a book of them; the place after it, and 0 if nothing is left.
// It calls itself, so that the compiler keeps the book out of its caller's frame: a call for the plain layout would pay for it. How often it does, `rounds`, is 0 for a map of whole entries.
fn write_packed(
    chained: bool,
    src: &[u8],
    parts: CoverParts,
    glyphs: &[u8],
    cells: Cells,
    t: &mut [u32],
    rounds: usize,
    area: &mut [u8],
) -> usize
    requires { Asks chained src.now parts glyphs.now cells.glyphs cells.lookups t.old area.old }
    ensures { Writes true chained src.now parts glyphs.now cells.glyphs cells.lookups t.old area.old area.new result }
{
    if rounds != 0 {
        return write_packed(chained, src, parts, glyphs, cells, t, rounds - 1, area);
    }
    let mut book = [0u32; BOOK];
    begin(&mut book);
    write_context(chained, src, parts, glyphs, cells, t, area, &mut book)
}

// The same in the layout that is asked for, with a book of our own.
pub fn write_in(
    packing: usize,
    chained: bool,
    src: &[u8],
    parts: CoverParts,
    glyphs: &[u8],
    cells: Cells,
    t: &mut [u32],
    area: &mut [u8],
) -> usize
    requires { Asks chained src.now parts glyphs.now cells.glyphs cells.lookups t.old area.old }
    ensures { Writes (is_packed packing) chained src.now parts glyphs.now cells.glyphs cells.lookups t.old area.old area.new result }
{
    if packing == 1 {
        return write_packed(
            chained,
            src,
            parts,
            glyphs,
            cells,
            t,
            glyphs.len() % 2,
            area,
        );
    }
    let mut book = [0u32; 1];
    begin(&mut book);
    write_context(chained, src, parts, glyphs, cells, t, area, &mut book)
}
