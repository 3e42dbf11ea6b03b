// One range of a coverage and a listed glyph map: the entries of the map that lie in the range, noted in cells.
#![tactic(auto)]

ghost use Rattle.std.specs.Prelude.{◌≡◌, true, ◌+◌, ◌*◌, ◌/◌, ◌≤◌, ◌<◌, length};
ghost use Rattle.meaning.specs.Maps.{map_entries};
ghost use Rattle.meaning.specs.Words.{keys, ascends};
ghost use Rattle.range_meets.specs.Walks.{MeetsRange, InRange, Reached};

use wire::word_inside;

// The first entry of the map, from the entry `from` on, whose old number is `value` or more; the number of entries if none is.
// It is mostly close: the search looks at four entries one by one, then it halves.
pub fn reach(glyphs: &[u8], from: usize, value: usize) -> usize
    requires { (from ≤ length glyphs.now / 4) × (ascends (keys (map_entries glyphs.now)) ≡ true) }
    ensures { Reached glyphs.now from value result }
{
    halving::reach(glyphs, 0, 4, glyphs.len() / 4, from, from + 4, value)
}

// The entries of the map from the entry `from` on that are `last` at most, noted from `to` on; how many. They lie in a range of glyphs whose first one is `first`, with the coverage index `index`.
pub fn meet_range(
    glyphs: &[u8],
    from: usize,
    first: usize,
    last: usize,
    index: usize,
    t: &mut [u32],
    to: usize,
) -> usize
    requires { MeetsRange glyphs.now from first index t.old to }
    ensures { InRange glyphs.now from first last index t.old to t.new result }
{
    let n = glyphs.len() / 4 - from;
    for k in 0..n {
        let old = word_inside(glyphs, 4 * (from + k));
        if last < old {
            return k;
        }
        let new = word_inside(glyphs, 4 * (from + k) + 2);
        t[to + k] = ((index + (old - first)) * 65536 + new) as u32;
    }
    n
}
