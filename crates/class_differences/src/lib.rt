// What differs between two contexts by class, plain or chained (format 2). The subtables stand at the front of their slices. Each covered glyph reaches the set of its class.
// All classes get numbers first, then all rules; then each id is asked in both coverages. `num`, `nums`, `heads` and `links` are as set_differences has them, lent, whatever they hold.
#![tactic(auto)]

ghost use Rattle.std.specs.Prelude.{◌≡◌, cond, ◌+◌, ◌≤◌, ◌<◌, length, eqb};
ghost use Rattle.meaning.specs.Words.{up_from};
ghost use Rattle.meaning.specs.Tables.{table};
ghost use Rattle.class_places.specs.Places.{slots_at};
ghost use Rattle.differences.specs.Content.{content};
ghost use Rattle.differences.specs.Entries.{each, rule_entries, differences};
ghost use Rattle.listing.specs.Listed.{Listed};
ghost use Rattle.listing.specs.Laid.{LaidList};
ghost use Rattle.first_glyphs.specs.First.{at_glyph};
ghost use Rattle.set_numbers.specs.Sets.{Cells, Told};
ghost use Rattle.gathered.specs.Gathered.{Scratch, Fit, Remembered};
ghost use Rattle.class_tables.specs.Contexts.{class_says_by};
ghost use Rattle.class_differences.specs.Reached.{numbers_by, ClassTable, ByClass, shape_of};

use class_places::slots_at;
use class_tables::{number_tables, set_of};
use first_glyphs::{cover_index, list_right};
use listing::put_listed;
use rule_says::Shape;
use set_differences::{Sets, list_set_pair, remember};
use set_numbers::number_all;

// A first glyph of contexts, plain or chained, and the place in the buffer.
#[derive(Clone, Copy)]
struct First {
    chained: bool,
    glyph: usize,
    pos: usize,
}

// What differs for a first glyph, listed from `at.pos` on; the place after it.
fn list_glyph(
    at: First,
    left: &[u8],
    right: &[u8],
    num: &[u32],
    nums: &mut [u32],
    heads: &mut [u32],
    links: &mut [u32],
    out: &mut [u8],
) -> usize
    requires { ClassTable at.chained left.now × ClassTable at.chained right.now × (at.glyph < 65536) × (at.pos < 0x1000_0000_0000) × Fit num.now (length nums.old) (length heads.old) (length links.old) × Remembered num.now left.now right.now nums.old }
    ensures { Listed (at_glyph (rule_entries eqb) (numbers_by at.chained num.now left.now 0) (numbers_by at.chained num.now right.now 1) at.glyph) out.old at.pos out.new result × (result ≤ at.pos + 0x18_0000) × Remembered num.now left.now right.now nums.new }
{
    let Some(_) = cover_index(left, at.glyph) else {
        return list_right(right, at.glyph, out, at.pos);
    };
    let Some(_) = cover_index(right, at.glyph) else {
        return put_listed(out, at.pos, 2, 0, at.glyph, 0, 0, 0);
    };
    let sets = Sets {
        left: set_of(at.chained, left, at.glyph),
        right: set_of(at.chained, right, at.glyph),
        first: at.glyph,
        pos: at.pos,
    };
    list_set_pair(sets, left, right, num, nums, heads, links, out)
}

// What differs between two sound contexts whose rules have numbers, listed where there is room; the list's length.
fn list_numbered(
    chained: bool,
    left: &[u8],
    right: &[u8],
    num: &[u32],
    nums: &mut [u32],
    heads: &mut [u32],
    links: &mut [u32],
    out: &mut [u8],
) -> usize
    requires { ClassTable chained left.now × ClassTable chained right.now × Fit num.now (length nums.old) (length heads.old) (length links.old) }
    ensures { Listed (each (at_glyph (rule_entries eqb) (numbers_by chained num.now left.now 0) (numbers_by chained num.now right.now 1)) (up_from 0 65536)) out.old 0 out.new result × (result ≤ 0x18_0000_0000) }
{
    remember(nums, 0, 0, 0);
    let mut at = 0;
    for g in 0..65536 {
        let first = First {
            chained,
            glyph: g,
            pos: at,
        };
        at = list_glyph(first, left, right, num, nums, heads, links, out);
    }
    at
}

// The same: the list's length, and the list in the buffer if there is room for all of it. It is gone over twice, since nothing is written before its length is known.
fn lay_numbered(
    chained: bool,
    left: &[u8],
    right: &[u8],
    num: &[u32],
    nums: &mut [u32],
    heads: &mut [u32],
    links: &mut [u32],
    out: &mut [u8],
) -> usize
    requires { ClassTable chained left.now × ClassTable chained right.now × Fit num.now (length nums.old) (length heads.old) (length links.old) }
    ensures { LaidList (each (at_glyph (rule_entries eqb) (numbers_by chained num.now left.now 0) (numbers_by chained num.now right.now 1)) (up_from 0 65536)) out.old out.new result × (result ≤ 0x18_0000_0000) }
{
    let mut none = [0u8; 1];
    let size = list_numbered(chained, left, right, num, nums, heads, links, &mut none);
    if out.len() < size {
        return size;
    }
    list_numbered(chained, left, right, num, nums, heads, links, out)
}

// The kind of contexts, plain or chained, whose words are classes.
fn shape_of(chained: bool) -> Shape
    ensures { result ≡ shape_of chained }
{
    if chained {
        return Shape {
            kind: 2,
            classes: 1,
        };
    }
    Shape {
        kind: 1,
        classes: 1,
    }
}

// Numbers for all rules of two sound contexts by class, equal exactly if the rules say the same. `came` is as rule_numbers has it, and `t` has the numbers of the classes; what stands in them before does not matter.
fn number_rules(
    chained: bool,
    left: &[u8],
    right: &[u8],
    num: &mut [u32],
    came: &mut [u32],
    t: &mut [u32],
)
    requires { ByClass chained left.now × ByClass chained right.now × Cells (length num.old) (length came.old) × (458752 ≤ length t.old) }
    ensures { Told (class_says_by chained left.now right.now) left.now right.now (slots_at chained) num.new }
{
    number_tables(chained, left, right, t);
    let shape = shape_of(chained);
    let first = slots_at(chained);
    number_all(shape, left, right, t, first, num, came);
}

// What differs between two sound contexts by class, plain or chained: the list's length, and the list in the buffer if there is room for all of it.
pub fn lay_rules(
    chained: bool,
    left: &[u8],
    right: &[u8],
    num: &mut [u32],
    nums: &mut [u32],
    heads: &mut [u32],
    links: &mut [u32],
    out: &mut [u8],
) -> usize
    requires { ByClass chained left.now × ByClass chained right.now × Scratch (length num.old) (length nums.old) (length heads.old) (length links.old) }
    ensures { LaidList (differences (content (table (cond chained 2 1) left.now)) (content (table (cond chained 2 1) right.now))) out.old out.new result × (result ≤ 0x18_0000_0000) }
{
    number_rules(chained, left, right, num, heads, links);
    lay_numbered(chained, left, right, num, nums, heads, links, out)
}
