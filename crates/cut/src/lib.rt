// What is left of a sound source, with the work space: lent, or our own in few sizes.
#![tactic(auto)]

ghost use Rattle.std.specs.Prelude.{◌≡◌, true, false, ◌<◌};
ghost use Rattle.meaning.specs.Maps.{map_entries, glyph_entries};
ghost use Rattle.meaning.specs.Tables.{table};
ghost use Rattle.meaning.specs.Cut.{cut};
ghost use Rattle.meaning.specs.Subset.{written_in};
ghost use Rattle.room.specs.Laid.{outcome_of};
ghost use Rattle.tried.specs.Tries.{Tries};
ghost use Rattle.cut_sizes.specs.Cutting.{Sound, cells_for, bytes_for, UnlessShort, NeverShort};

use cut_kinds::cut_in;
use cut_sizes::{
    BYTES, CELLS, LITTLE_BYTES, LITTLE_CELLS, MORE_BYTES, MORE_CELLS, MUCH_BYTES, MUCH_CELLS,
    OTHER_CELLS, SOME_BYTES, SOME_CELLS, likely_size, pairs_by_class,
};
use marks::Marks;
use room::{LIMIT, NotLaid};
use tried::{NotCut, answered};

// So many cells of our own. The type says how many they are, and nothing says what is in them.
fn own_cells<const N: usize>() -> [u32; N] {
    [0u32; N]
}

// So many bytes of area of our own.
fn own_bytes<const N: usize>() -> [u8; N] {
    [0u8; N]
}

// With so many cells and bytes of our own. It stands alone, so that its arrays stay out of its caller's frame: a small job would pay for them, and docs/SPEED.md says how much.
#[inline(never)]
fn in_own<const CELLS: usize, const BYTES: usize>(
    marks: Marks,
    src: &[u8],
    glyphs: &[u8],
    lookups: &[u8],
    out: &mut [u8],
) -> Result<usize, NotCut>
    requires { Sound marks.kind marks.form src.now glyphs.now lookups.now × (CELLS < 0x1000_0000) × (BYTES < 0x1000_0000) }
    ensures { Tries (CELLS < cells_for marks.kind src.now) (BYTES < bytes_for marks.kind src.now) result out.old out.new (written_in marks.layout out.old (cut (glyph_entries marks.form glyphs.now) (map_entries lookups.now) (table marks.kind src.now))) }
{
    let mut t = own_cells::<CELLS>();
    let mut area = own_bytes::<BYTES>();
    cut_in(marks, src, glyphs, lookups, &mut t, &mut area, out)
}

// With scratch that is enough for any source of this kind and format.
fn in_most(
    marks: Marks,
    src: &[u8],
    glyphs: &[u8],
    lookups: &[u8],
    out: &mut [u8],
) -> Result<usize, NotCut>
    requires { Sound marks.kind marks.form src.now glyphs.now lookups.now }
    ensures { NeverShort result out.old out.new (written_in marks.layout out.old (cut (glyph_entries marks.form glyphs.now) (map_entries lookups.now) (table marks.kind src.now))) }
{
    if pairs_by_class(marks.kind, src) {
        return in_own::<CELLS, LIMIT>(marks, src, glyphs, lookups, out);
    }
    in_own::<OTHER_CELLS, BYTES>(marks, src, glyphs, lookups, out)
}

// With one of the sizes that are not enough for any source: 0 is little scratch, 1 some, 2 more, and any other much.
fn in_size(
    size: usize,
    marks: Marks,
    src: &[u8],
    glyphs: &[u8],
    lookups: &[u8],
    out: &mut [u8],
) -> Result<usize, NotCut>
    requires { Sound marks.kind marks.form src.now glyphs.now lookups.now }
    ensures { UnlessShort result out.old out.new (written_in marks.layout out.old (cut (glyph_entries marks.form glyphs.now) (map_entries lookups.now) (table marks.kind src.now))) }
{
    match size {
        0 => in_own::<LITTLE_CELLS, LITTLE_BYTES>(marks, src, glyphs, lookups, out),
        1 => in_own::<SOME_CELLS, SOME_BYTES>(marks, src, glyphs, lookups, out),
        2 => in_own::<MORE_CELLS, MORE_BYTES>(marks, src, glyphs, lookups, out),
        _ => in_own::<MUCH_CELLS, MUCH_BYTES>(marks, src, glyphs, lookups, out),
    }
}

// What is left of a sound source of this kind, handed over if there is room, with scratch of our own: of the size that is likely to do, and the next one where that is too short.
pub fn cut_own(
    marks: Marks,
    src: &[u8],
    glyphs: &[u8],
    lookups: &[u8],
    out: &mut [u8],
) -> Result<usize, NotLaid>
    requires { Sound marks.kind marks.form src.now glyphs.now lookups.now }
    ensures { outcome_of result out.new ≡ written_in marks.layout out.old (cut (glyph_entries marks.form glyphs.now) (map_entries lookups.now) (table marks.kind src.now)) }
{
    for size in likely_size(marks.kind, src, glyphs, marks.form, lookups)..4 {
        if let Some(laid) = answered(in_size(size, marks, src, glyphs, lookups, out)) {
            return laid;
        }
    }
    answered(in_most(marks, src, glyphs, lookups, out)).unwrap()
}

// The same with lent scratch whose content is arbitrary, and with our own where that is too short.
pub fn cut_lent(
    marks: Marks,
    src: &[u8],
    glyphs: &[u8],
    lookups: &[u8],
    t: &mut [u32],
    area: &mut [u8],
    out: &mut [u8],
) -> Result<usize, NotLaid>
    requires { Sound marks.kind marks.form src.now glyphs.now lookups.now }
    ensures { outcome_of result out.new ≡ written_in marks.layout out.old (cut (glyph_entries marks.form glyphs.now) (map_entries lookups.now) (table marks.kind src.now)) }
{
    if let Some(laid) = answered(cut_in(marks, src, glyphs, lookups, t, area, out)) {
        return laid;
    }
    cut_own(marks, src, glyphs, lookups, out)
}
