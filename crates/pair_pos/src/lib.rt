// Pair sets and value formats of pair positioning: checked; device bits.
#![tactic(auto)]

ghost use Rattle.std.specs.Prelude.{◌≡◌, ◌&&◌, ◌||◌, ◌+◌, ◌*◌, ◌≤◌, ◌<◌, length, eqb};
ghost use Rattle.meaning.specs.Words.{word, ascends};
ghost use Rattle.meaning.specs.Tables.{field_count};
ghost use Rattle.meaning.specs.Fault.{pair_set_fault};
ghost use Rattle.meaning.specs.Subset.{has_device};
ghost use Rattle.laws.specs.Left.{column};

use wire::{inside, word_at, word_inside};

// How many fields a value record of the format `f` has: one for each set bit of the lower eight.
fn field_count(f: usize) -> usize
    ensures { (result ≡ field_count f) × (result ≤ 8) }
{
    f % 2 + f / 2 % 2 + f / 4 % 2 + f / 8 % 2 + f / 16 % 2 + f / 32 % 2 + f / 64 % 2 + f / 128 % 2
}

// How many bytes a pair record takes: the second glyph and the fields of both value records.
pub fn pair_size(f1: usize, f2: usize) -> usize
    ensures { (result ≡ 2 + 2 * field_count f1 + 2 * field_count f2) × (result ≤ 34) }
{
    2 + 2 * field_count(f1) + 2 * field_count(f2)
}

// Whether a value format has a bit of 0x00F0.
fn has_device(format: usize) -> bool
    ensures { result ≡ has_device format }
{
    format / 16 % 16 != 0
}

// Whether the kind is pair, and one of the two value formats has such a bit.
pub fn pair_device(kind: usize, src: &[u8]) -> bool
    ensures { result ≡ eqb kind 4 && (has_device (word src.now 4) || has_device (word src.now 6)) }
{
    if kind != 4 {
        return false;
    }
    if has_device(word_at(src, 4)) {
        return true;
    }
    has_device(word_at(src, 6))
}

// Whether the second glyphs of the `n` pair records from `at` on ascend strictly. The records are `size` bytes long. They lie inside the source, so that their glyphs are
// read without the test that `wire::ascending` makes of each word: every pair of a table passes here, however little of it survives. The first is read with it, since there
// may be none.
fn seconds_ascend(src: &[u8], at: usize, n: usize, size: usize) -> bool
    requires { (2 ≤ size) × (at + size * n ≤ length src.now) }
    ensures { result ≡ ascends (column src.now size at n) }
{
    let mut last = word_at(src, at);
    for i in 1..n {
        let next = word_inside(src, at + size * i);
        if next <= last {
            return false;
        }
        last = next;
    }
    true
}

// Where the pair set at `at` is faulty: at its start, if it does not lie inside the source or its second glyphs do not ascend.
#[tactic(auto, using(crate::proofs::Checked::seconds_column), unfolding(meaning::specs::Fault::pair_set_fault, meaning::specs::Tables::pair_set, meaning::specs::Fault::part_fault, meaning::specs::Words::inside))]
pub fn check_set(src: &[u8], at: usize, f1: usize, f2: usize) -> Option<usize>
    requires { at < 0x1_0000_0000 }
    ensures { result ≡ pair_set_fault (field_count f1) (field_count f2) src.now at }
{
    if !inside(src, at, 2) {
        return Some(at);
    }
    let n = word_at(src, at);
    let size = pair_size(f1, f2);
    if !inside(src, at + 2, size * n) {
        return Some(at);
    }
    if !seconds_ascend(src, at + 2, n, size) {
        return Some(at);
    }
    None
}
