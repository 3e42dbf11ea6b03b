// What differs between the rules that a first glyph reaches on the left and on the right, where each rule's partner is known. Partners are lent as cells: the partner's rank plus 1, or 0 for a rule that has none.
#![tactic(auto)]

ghost use Rattle.std.specs.Prelude.{◌≡◌, ◌+◌, ◌≤◌, ◌<◌};
ghost use Rattle.meaning.specs.Words.{up_from};
ghost use Rattle.differences.specs.Entries.{each, left_rule, right_rule, longer};
ghost use Rattle.listing.specs.Listed.{Listed};
ghost use Rattle.rule_differences.specs.Ranked.{rank_of, both_at};

use cells::cell;
use listing::put_listed;

// The entry of the left rule of rank `i`: it has no partner, or its partner has another rank and it has moved; the place after it.
fn put_left(out: &mut [u8], pos: usize, g: usize, i: usize, partner: usize) -> usize
    requires { pos < 0x8000_0000_0000 }
    ensures { Listed (left_rule g i (rank_of partner)) out.old pos out.new result × (result ≤ pos + 12) }
{
    if partner == 0 {
        return put_listed(out, pos, 3, 0, g, i, 0, 0);
    }
    if i == partner - 1 {
        return pos;
    }
    put_listed(out, pos, 4, 0, g, i, i, partner - 1)
}

// The entry of the right rule of rank `i`: it has no partner; the place after it.
fn put_right(out: &mut [u8], pos: usize, g: usize, i: usize, partner: usize) -> usize
    requires { pos < 0x8000_0000_0000 }
    ensures { Listed (right_rule g i (rank_of partner)) out.old pos out.new result × (result ≤ pos + 12) }
{
    if partner == 0 {
        return put_listed(out, pos, 3, 1, g, i, 0, 0);
    }
    pos
}

// The greater of two counts.
fn longer(m: usize, n: usize) -> usize
    ensures { result ≡ longer m n }
{
    if m <= n {
        return n;
    }
    m
}

// What differs between the `m` rules of the left and the `n` of the right, rank by rank, listed from `pos` on; the place after it.
pub fn list_ranks(
    lefts: &[u32],
    m: usize,
    rights: &[u32],
    n: usize,
    g: usize,
    out: &mut [u8],
    pos: usize,
) -> usize
    requires { (m < 65536) × (n < 65536) × (pos < 0x2000_0000_0000) }
    ensures { Listed (each (both_at lefts.now m rights.now n g) (up_from 0 (longer m n))) out.old pos out.new result × (result ≤ pos + 0x18_0000) }
{
    let end = longer(m, n);
    let mut at = pos;
    for i in 0..end {
        if i < m {
            at = put_left(out, at, g, i, cell(lefts, i));
        }
        if i < n {
            at = put_right(out, at, g, i, cell(rights, i));
        }
    }
    at
}
