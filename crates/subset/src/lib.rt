// The call: three marks, a source, a glyph map, a lookup map and a lent buffer, and the first answer that applies; also on plain numbers, with one number as the answer.
#![tactic(auto)]

ghost use Rattle.std.specs.Prelude.{◌≡◌};
ghost use Rattle.meaning.specs.Subset.{subset};
ghost use Rattle.refusals.specs.Answers.{outcome, decoded};

use answer_numbers::one_number;
use cut::{cut_lent, cut_own};
use marks::Marks;
use refusals::{Refusal, judge};

// The call: what is left of a source under a glyph map and a lookup map, laid into the buffer, with how many bytes it takes, or the first of the refusals that applies, in their written order: 1, 13, 14, 2 to 7, 12, 8 to 10.
// A refusal leaves the buffer untouched, and bytes past those that are kept keep their old content.
pub fn subset(
    marks: Marks,
    source: &[u8],
    glyphs: &[u8],
    lookups: &[u8],
    out: &mut [u8],
) -> Result<usize, Refusal>
    ensures { outcome result out.new ≡ subset marks.kind marks.form marks.layout source.now glyphs.now lookups.now out.old }
{
    judge(marks, source, glyphs, lookups)?;
    Ok(cut_own(marks, source, glyphs, lookups, out)?)
}

// The same call with lent scratch, whatever it holds: 32-bit cells, and an area of bytes. Where it is too short our own is taken; with `cut_sizes::CELLS` cells and `cut_sizes::BYTES` bytes it never is.
pub fn subset_in(
    marks: Marks,
    source: &[u8],
    glyphs: &[u8],
    lookups: &[u8],
    cells: &mut [u32],
    area: &mut [u8],
    out: &mut [u8],
) -> Result<usize, Refusal>
    ensures { outcome result out.new ≡ subset marks.kind marks.form marks.layout source.now glyphs.now lookups.now out.old }
{
    judge(marks, source, glyphs, lookups)?;
    Ok(cut_lent(marks, source, glyphs, lookups, cells, area, out)?)
}

// The call as other languages make it, through `subset_c`, on numbers and byte slices: its three marks first. The answer is one number: the answer's number times 2^56, plus its length.
pub fn gillcurtain_subset(
    kind: u64,
    form: u64,
    layout: u64,
    source: &[u8],
    glyphs: &[u8],
    lookups: &[u8],
    out: &mut [u8],
) -> u64
    ensures { decoded result out.new ≡ subset kind form layout source.now glyphs.now lookups.now out.old }
{
    let marks = Marks {
        kind: kind as usize,
        form: form as usize,
        layout: layout as usize,
    };
    one_number(subset(marks, source, glyphs, lookups, out))
}

// The same with lent scratch, as `subset_in` takes it.
pub fn gillcurtain_subset_in(
    kind: u64,
    form: u64,
    layout: u64,
    source: &[u8],
    glyphs: &[u8],
    lookups: &[u8],
    cells: &mut [u32],
    area: &mut [u8],
    out: &mut [u8],
) -> u64
    ensures { decoded result out.new ≡ subset kind form layout source.now glyphs.now lookups.now out.old }
{
    let marks = Marks {
        kind: kind as usize,
        form: form as usize,
        layout: layout as usize,
    };
    one_number(subset_in(marks, source, glyphs, lookups, cells, area, out))
}
