// What differs between two subtables whose rules are reached by coverage index: contexts, plain or chained, of format 1, and ligatures (kinds 1 to 3). The subtables stand at the front of their slices.
// All rules get numbers first; then each id is asked in both coverages. `num`, `nums`, `heads` and `links` are as set_differences has them, lent, whatever they hold.
#![tactic(auto)]

ghost use Rattle.std.specs.Prelude.{◌+◌, ◌≤◌, ◌<◌, length, eqb};
ghost use Rattle.meaning.specs.Words.{up_from};
ghost use Rattle.meaning.specs.Tables.{table};
ghost use Rattle.differences.specs.Content.{content};
ghost use Rattle.differences.specs.Entries.{each, rule_entries, differences};
ghost use Rattle.listing.specs.Listed.{Listed};
ghost use Rattle.listing.specs.Laid.{LaidList};
ghost use Rattle.first_glyphs.specs.First.{at_glyph};
ghost use Rattle.gathered.specs.Gathered.{Scratch, Fit, Remembered};
ghost use Rattle.glyph_differences.specs.Slots.{numbers_by, SlotTable, ByGlyph};

use first_glyphs::{cover_index, list_right};
use listing::put_listed;
use rule_says::Shape;
use set_differences::{Sets, list_set_pair, remember};
use set_numbers::number_all;
use wire::word_at;

// A first glyph, and the place in the buffer.
#[derive(Clone, Copy)]
struct First {
    glyph: usize,
    pos: usize,
}

// What differs for a first glyph, listed from `at.pos` on; the place after it.
fn list_glyph(
    at: First,
    left: &[u8],
    right: &[u8],
    num: &[u32],
    nums: &mut [u32],
    heads: &mut [u32],
    links: &mut [u32],
    out: &mut [u8],
) -> usize
    requires { SlotTable left.now × SlotTable right.now × (at.glyph < 65536) × (at.pos < 0x1000_0000_0000) × Fit num.now (length nums.old) (length heads.old) (length links.old) × Remembered num.now left.now right.now nums.old }
    ensures { Listed (at_glyph (rule_entries eqb) (numbers_by num.now left.now 0) (numbers_by num.now right.now 1) at.glyph) out.old at.pos out.new result × (result ≤ at.pos + 0x18_0000) × Remembered num.now left.now right.now nums.new }
{
    let Some(i) = cover_index(left, at.glyph) else {
        return list_right(right, at.glyph, out, at.pos);
    };
    let Some(j) = cover_index(right, at.glyph) else {
        return put_listed(out, at.pos, 2, 0, at.glyph, 0, 0, 0);
    };
    let sets = Sets {
        left: word_at(left, 6 + 2 * i),
        right: word_at(right, 6 + 2 * j),
        first: at.glyph,
        pos: at.pos,
    };
    list_set_pair(sets, left, right, num, nums, heads, links, out)
}

// What differs between two sound subtables whose rules have numbers, listed where there is room; the list's length.
fn list_numbered(
    left: &[u8],
    right: &[u8],
    num: &[u32],
    nums: &mut [u32],
    heads: &mut [u32],
    links: &mut [u32],
    out: &mut [u8],
) -> usize
    requires { SlotTable left.now × SlotTable right.now × Fit num.now (length nums.old) (length heads.old) (length links.old) }
    ensures { Listed (each (at_glyph (rule_entries eqb) (numbers_by num.now left.now 0) (numbers_by num.now right.now 1)) (up_from 0 65536)) out.old 0 out.new result × (result ≤ 0x18_0000_0000) }
{
    remember(nums, 0, 0, 0);
    let mut at = 0;
    for g in 0..65536 {
        let first = First { glyph: g, pos: at };
        at = list_glyph(first, left, right, num, nums, heads, links, out);
    }
    at
}

// The same: the list's length, and the list in the buffer if there is room for all of it. It is gone over twice, since nothing is written before its length is known.
fn lay_numbered(
    left: &[u8],
    right: &[u8],
    num: &[u32],
    nums: &mut [u32],
    heads: &mut [u32],
    links: &mut [u32],
    out: &mut [u8],
) -> usize
    requires { SlotTable left.now × SlotTable right.now × Fit num.now (length nums.old) (length heads.old) (length links.old) }
    ensures { LaidList (each (at_glyph (rule_entries eqb) (numbers_by num.now left.now 0) (numbers_by num.now right.now 1)) (up_from 0 65536)) out.old out.new result × (result ≤ 0x18_0000_0000) }
{
    let mut none = [0u8; 1];
    let size = list_numbered(left, right, num, nums, heads, links, &mut none);
    if out.len() < size {
        return size;
    }
    list_numbered(left, right, num, nums, heads, links, out)
}

// What differs between two sound subtables of format 1 of this kind: the list's length, and the list in the buffer if there is room for all of it.
pub fn lay_rules(
    kind: usize,
    left: &[u8],
    right: &[u8],
    num: &mut [u32],
    nums: &mut [u32],
    heads: &mut [u32],
    links: &mut [u32],
    out: &mut [u8],
) -> usize
    requires { ByGlyph kind left.now × ByGlyph kind right.now × Scratch (length num.old) (length nums.old) (length heads.old) (length links.old) }
    ensures { LaidList (differences (content (table kind left.now)) (content (table kind right.now))) out.old out.new result × (result ≤ 0x18_0000_0000) }
{
    let shape = Shape { kind, classes: 0 };
    number_all(shape, left, right, links, 6, num, heads);
    lay_numbered(left, right, num, nums, heads, links, out)
}
