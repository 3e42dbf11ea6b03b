// What differs between two sets of rules, by the numbers of the rules: they are paired by number and listed rank by rank. `num` has the number of each code.
// `nums` has two rows of 65,536 cells for the numbers of a left set and of a right one, and then three cells that remember the latest pair of sets: where they stand, and how many bytes their list takes.
// `heads` and `links` are as partners has them. What stands in them before does not matter.
#![tactic(auto)]

ghost use Rattle.std.specs.Prelude.{◌≡◌, ◌+◌, ◌≤◌, ◌<◌, length, get_or, eqb};
ghost use Rattle.differences.specs.Entries.{rule_entries};
ghost use Rattle.listing.specs.Listed.{Listed};
ghost use Rattle.partners.specs.Chains.{numbers_from};
ghost use Rattle.gathered.specs.Gathered.{numbers_at, Rowed, PairedRows, Fit, Remembered, Known};

use cells::{cell, put_cell};
use gathered::gather;
use partners::pair;
use rule_differences::list_ranks;
use set_numbers::Set;

// How many cells are enough for any two subtables: `num`, `nums`, `heads` and `links`. While rules get their numbers, `heads` is what rule_numbers has in `came`, and `links` are the numbers of classes as class_tables has them.
pub const NUM: usize = 262144;

pub const NUMS: usize = 131075;

pub const HEADS: usize = 589828;

pub const LINKS: usize = 458752;

// A pair of sets: where the left one and the right one stand, the first glyph that reaches them, and the place in the buffer.
#[derive(Clone, Copy)]
pub struct Sets {
    pub left: usize,
    pub right: usize,
    pub first: usize,
    pub pos: usize,
}

// How many numbers stand in each of the two rows.
#[derive(Clone, Copy)]
struct Counts {
    left: usize,
    right: usize,
}

// The partners of `counts.left` numbers in the first row of `nums` and of `counts.right` in the second one.
fn pair_rows(counts: Counts, nums: &[u32], heads: &mut [u32], links: &mut [u32])
    requires { Rowed counts.left counts.right nums.now (length heads.old) (length links.old) }
    ensures { PairedRows (numbers_from nums.now 0 counts.left) (numbers_from nums.now 65536 counts.right) links.new }
{
    let rights = &nums[65536..];
    pair(nums, counts.left, rights, counts.right, heads, links, 0);
    pair(rights, counts.right, nums, counts.left, heads, links, 65536);
}

// What differs between two sets, listed from `sets.pos` on; the place after it.
fn list_sets(
    sets: Sets,
    left: &[u8],
    right: &[u8],
    num: &[u32],
    nums: &mut [u32],
    heads: &mut [u32],
    links: &mut [u32],
    out: &mut [u8],
) -> usize
    requires { (sets.left < 65536) × (sets.right < 65536) × (sets.pos < 0x2000_0000_0000) × Fit num.now (length nums.old) (length heads.old) (length links.old) }
    ensures { Listed (rule_entries eqb sets.first (numbers_at num.now left.now 0 sets.left) (numbers_at num.now right.now 1 sets.right)) out.old sets.pos out.new result × (result ≤ sets.pos + 0x18_0000) }
{
    let lset = Set {
        side: 0,
        at: sets.left,
    };
    let m = gather(left, lset, num, nums, 0);
    let rset = Set {
        side: 1,
        at: sets.right,
    };
    let n = gather(right, rset, num, nums, 65536);
    let counts = Counts { left: m, right: n };
    pair_rows(counts, nums, heads, links);
    let rows = &links[..];
    list_ranks(rows, m, &rows[65536..], n, sets.first, out, sets.pos)
}

// Whether this pair of sets is the one that is remembered, and nothing of its list is to be written: it is empty, or the place is past the buffer's `room`.
fn is_known(nums: &[u32], sets: Sets, room: usize) -> bool
    ensures { Known nums.now sets.left sets.right sets.pos room result }
{
    if cell(nums, 131072) != sets.left {
        return false;
    }
    if cell(nums, 131073) != sets.right {
        return false;
    }
    if cell(nums, 131074) == 0 {
        return true;
    }
    room <= sets.pos
}

// This pair of sets is the latest, and its list takes `len` bytes. Two null sets, at 0, take none.
pub fn remember(nums: &mut [u32], left: usize, right: usize, len: usize)
    requires { (131075 ≤ length nums.old) × (left < 65536) × (right < 65536) × (len < 0x1_0000_0000) }
    ensures { (get_or nums.new 131072 0 ≡ left) × (get_or nums.new 131073 0 ≡ right) × (get_or nums.new 131074 0 ≡ len) }
{
    put_cell(nums, 131072, left);
    put_cell(nums, 131073, right);
    put_cell(nums, 131074, len);
}

// What differs between two sets, listed from `sets.pos` on, where there is room; the place after it. A pair that comes again is not walked again if nothing of its list is written.
pub fn list_set_pair(
    sets: Sets,
    left: &[u8],
    right: &[u8],
    num: &[u32],
    nums: &mut [u32],
    heads: &mut [u32],
    links: &mut [u32],
    out: &mut [u8],
) -> usize
    requires { (sets.left < 65536) × (sets.right < 65536) × (sets.pos < 0x2000_0000_0000) × Fit num.now (length nums.old) (length heads.old) (length links.old) × Remembered num.now left.now right.now nums.old }
    ensures { Listed (rule_entries eqb sets.first (numbers_at num.now left.now 0 sets.left) (numbers_at num.now right.now 1 sets.right)) out.old sets.pos out.new result × (result ≤ sets.pos + 0x18_0000) × Remembered num.now left.now right.now nums.new }
{
    if is_known(nums, sets, out.len()) {
        return sets.pos + cell(nums, 131074);
    }
    let end = list_sets(sets, left, right, num, nums, heads, links, out);
    remember(nums, sets.left, sets.right, end - sets.pos);
    end
}
