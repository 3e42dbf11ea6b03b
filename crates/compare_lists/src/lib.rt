// What differs between two sound subtables of a kind, listed in the lent buffer if there is room for all of it.
#![tactic(auto)]

ghost use Rattle.std.specs.Prelude.{◌≡◌, true, false, ◌+◌, ◌≤◌, ◌<◌, length};
ghost use Rattle.meaning.specs.Words.{word};
ghost use Rattle.meaning.specs.Tables.{table};
ghost use Rattle.differences.specs.Content.{content};
ghost use Rattle.differences.specs.Entries.{differences};
ghost use Rattle.differences.specs.Compare.{compared_kind, compared_format};
ghost use Rattle.listing.specs.Listed.{Listed};
ghost use Rattle.listing.specs.Laid.{LaidList};
ghost use Rattle.gathered.specs.Gathered.{Scratch};
ghost use Rattle.compare_refusals.specs.Passes.{Passes, by_rules, Enough};

use cover_differences::{list_chained, list_plain};
use listing::put_listed;
use pair_differences::list_pairs;
use set_differences::{HEADS, LINKS, NUM, NUMS};
use wire::word_at;

// What differs between two contexts of different formats: the format. Listed from `pos` on, where there is room; the place after it.
fn list_formats(kind: usize, left: &[u8], right: &[u8], out: &mut [u8], pos: usize) -> usize
    requires { (1 ≤ kind) × (kind ≤ 2) × (compared_format kind (word left.now 0) ≡ true) × (compared_format kind (word right.now 0) ≡ true) × (word left.now 0 ≡ word right.now 0 → ⊥) × (pos < 0x4000_0000_0000) }
    ensures { Listed (differences (content (table kind left.now)) (content (table kind right.now))) out.old pos out.new result × (result ≤ pos + 12) }
{
    let f = word_at(left, 0);
    let h = word_at(right, 0);
    put_listed(out, pos, 1, 0, 0, 0, f, h)
}

// What differs between two sound contexts of format 3, listed where there is room; the list's length.
fn list_covers(kind: usize, left: &[u8], right: &[u8], out: &mut [u8]) -> usize
    requires { Passes kind left.now × Passes kind right.now × (1 ≤ kind) × (kind ≤ 2) × (word left.now 0 ≡ 3) × (word right.now 0 ≡ 3) }
    ensures { Listed (differences (content (table kind left.now)) (content (table kind right.now))) out.old 0 out.new result × (result ≤ 0x100_0000_0000) }
{
    if kind == 1 {
        return list_plain(left, right, out, 0);
    }
    list_chained(left, right, out, 0)
}

// Whether rules are to be paired: contexts of one format, 1 or 2, and ligatures.
fn by_rules(kind: usize, left: &[u8], right: &[u8]) -> bool
    ensures { result ≡ by_rules kind (word left.now 0) (word right.now 0) }
{
    if kind == 4 {
        return false;
    }
    let f = word_at(left, 0);
    if f != word_at(right, 0) {
        return false;
    }
    f != 3
}

// What differs between two sound subtables without rules to pair, listed where there is room; the list's length.
fn list_direct(kind: usize, left: &[u8], right: &[u8], out: &mut [u8]) -> usize
    requires { (compared_kind kind ≡ true) × Passes kind left.now × Passes kind right.now × (by_rules kind (word left.now 0) (word right.now 0) ≡ false) }
    ensures { Listed (differences (content (table kind left.now)) (content (table kind right.now))) out.old 0 out.new result × (result ≤ 0x100_0000_0000) }
{
    if kind == 4 {
        return list_pairs(left, right, out, 0);
    }
    if word_at(left, 0) != word_at(right, 0) {
        return list_formats(kind, left, right, out, 0);
    }
    list_covers(kind, left, right, out)
}

// The same: the list's length, and the list in the buffer if there is room for all of it. It is gone over twice, since nothing is written before its length is known.
fn lay_direct(kind: usize, left: &[u8], right: &[u8], out: &mut [u8]) -> usize
    requires { (compared_kind kind ≡ true) × Passes kind left.now × Passes kind right.now × (by_rules kind (word left.now 0) (word right.now 0) ≡ false) }
    ensures { LaidList (differences (content (table kind left.now)) (content (table kind right.now))) out.old out.new result × (result ≤ 0x100_0000_0000) }
{
    let mut none = [0u8; 1];
    let size = list_direct(kind, left, right, &mut none);
    if out.len() < size {
        return size;
    }
    list_direct(kind, left, right, out)
}

// The same of two sound subtables with rules to pair, of format 1 or 2. The cells are as set_differences has them, lent, whatever they hold.
fn lay_rules(
    kind: usize,
    left: &[u8],
    right: &[u8],
    num: &mut [u32],
    nums: &mut [u32],
    heads: &mut [u32],
    links: &mut [u32],
    out: &mut [u8],
) -> usize
    requires { (compared_kind kind ≡ true) × Passes kind left.now × Passes kind right.now × (by_rules kind (word left.now 0) (word right.now 0) ≡ true) × Scratch (length num.old) (length nums.old) (length heads.old) (length links.old) }
    ensures { LaidList (differences (content (table kind left.now)) (content (table kind right.now))) out.old out.new result × (result ≤ 0x100_0000_0000) }
{
    if word_at(left, 0) == 2 {
        return class_differences::lay_rules(kind == 2, left, right, num, nums, heads, links, out);
    }
    glyph_differences::lay_rules(kind, left, right, num, nums, heads, links, out)
}

// The same with cells of our own.
// It calls itself, so that the compiler keeps its arrays out of its caller's frame: only a caller that lends too little pays for them. How often it does, `rounds`, is 0 for kinds 1 to 3.
#[inline(never)]
fn lay_own(kind: usize, left: &[u8], right: &[u8], rounds: usize, out: &mut [u8]) -> usize
    requires { (compared_kind kind ≡ true) × Passes kind left.now × Passes kind right.now × (by_rules kind (word left.now 0) (word right.now 0) ≡ true) }
    ensures { LaidList (differences (content (table kind left.now)) (content (table kind right.now))) out.old out.new result × (result ≤ 0x100_0000_0000) }
{
    if rounds != 0 {
        return lay_own(kind, left, right, rounds - 1, out);
    }
    let mut num = [0u32; NUM];
    let mut nums = [0u32; NUMS];
    let mut heads = [0u32; HEADS];
    let mut links = [0u32; LINKS];
    lay_rules(
        kind, left, right, &mut num, &mut nums, &mut heads, &mut links, out,
    )
}

// Whether cells of these lengths are enough for any two subtables.
fn enough(num: usize, nums: usize, heads: usize, links: usize) -> bool
    ensures { Enough num nums heads links result }
{
    if num < NUM {
        return false;
    }
    if nums < NUMS {
        return false;
    }
    if heads < HEADS {
        return false;
    }
    LINKS <= links
}

// How many of these cells serve for the codes of rules: no more than are needed.
fn codes_in(size: usize) -> usize
    ensures { (result ≤ size) × (262144 ≤ size → result ≡ 262144) }
{
    size.min(NUM)
}

// What differs between two sound subtables: the list's length, and the list in the buffer if there is room for all of it. The cells are lent, whatever they hold; where they are too few our own are taken.
pub fn lay(
    kind: usize,
    left: &[u8],
    right: &[u8],
    num: &mut [u32],
    nums: &mut [u32],
    heads: &mut [u32],
    links: &mut [u32],
    out: &mut [u8],
) -> usize
    requires { (compared_kind kind ≡ true) × Passes kind left.now × Passes kind right.now }
    ensures { LaidList (differences (content (table kind left.now)) (content (table kind right.now))) out.old out.new result × (result ≤ 0x100_0000_0000) }
{
    if !by_rules(kind, left, right) {
        return lay_direct(kind, left, right, out);
    }
    if !enough(num.len(), nums.len(), heads.len(), links.len()) {
        return lay_own(kind, left, right, kind / 4, out);
    }
    let n = codes_in(num.len());
    lay_rules(kind, left, right, &mut num[..n], nums, heads, links, out)
}
