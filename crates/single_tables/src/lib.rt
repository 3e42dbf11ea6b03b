// Single substitutions: the table of the pairs that stay, in either format, written into the area; and what was written, handed over.
#![tactic(auto)]

ghost use Rattle.std.specs.Prelude.{true, ◌+◌, ◌*◌, ◌≤◌, ◌<◌, length};
ghost use Rattle.laws.specs.Written.{Wrote};
ghost use Rattle.single_pairs.specs.Pairs.{subs};
ghost use Rattle.single_tables.specs.Writing.{delta_layout, list_layout, Standing, Stands, Hands};

use area::{put, put_three};
use area_parts::write_cover;
use handing::hand_over;
use single_pairs::difference;
use tried::NotCut;

// The new substitutes of the `n` pairs from `at` on, from `to` on in the area; the place after them.
fn put_substitutes(t: &[u32], at: usize, n: usize, area: &mut [u8], to: usize) -> usize
    requires { (at + n ≤ length t.now) × (to + 2 * n ≤ length area.old) }
    ensures { Wrote area.old to (subs t.now at n) area.new result }
{
    let mut p = to;
    for i in 0..n {
        p = put(area, p, t[at + i] as usize / 65536);
    }
    p
}

// Format 1 of the `n` pairs from `at` on: header, with the difference of all, and coverage; the place after it.
pub fn write_delta(t: &[u32], at: usize, n: usize, area: &mut [u8]) -> usize
    requires { Standing t.now at n × (6 ≤ length area.old) }
    ensures { Stands area.old (delta_layout t.now at n) area.new result }
{
    let p = put_three(area, 0, 1, 6, difference(t, at));
    write_cover(t, at, n, area, p)
}

// Format 2 of these pairs: header, with their substitutes, and coverage; the place after it.
pub fn write_list(t: &[u32], at: usize, n: usize, area: &mut [u8]) -> usize
    requires { Standing t.now at n × (6 + 2 * n ≤ length area.old) }
    ensures { Stands area.old (list_layout t.now at n) area.new result }
{
    let p = put_three(area, 0, 2, 6 + 2 * n, n);
    let q = put_substitutes(t, at, n, area, p);
    write_cover(t, at, n, area, q)
}

// What was written into the area up to `end`, handed over; the area was too short where that is past it.
pub fn hand(area: &[u8], end: usize, out: &mut [u8]) -> Result<usize, NotCut>
    ensures { Hands area.now end result out.old out.new }
{
    if area.len() < end {
        return Err(NotCut::Short);
    }
    Ok(hand_over(area, 0, 0, end, true, out)?)
}
