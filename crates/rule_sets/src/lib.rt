// Sets of rules of contexts, plain and chained: what is left of them, written into the area in one walk.
#![tactic(auto)]

ghost use Rattle.std.specs.Prelude.{◌≡◌, ◌+◌, ◌≤◌, ◌<◌, length, None};
ghost use Rattle.meaning.specs.Tables.{rule_set};
ghost use Rattle.meaning.specs.Fault.{rule_fault, set_fault};
ghost use Rattle.meaning.specs.Cut.{cut_set};
ghost use Rattle.meaning.specs.Layout.{block, rule_words, set_words};
ghost use Rattle.meaning.specs.Subset.{limit};
ghost use Rattle.numbers.specs.Leaves.{Leaves};
ghost use Rattle.member_sets.specs.Sets.{set_most};
ghost use Rattle.member_sets.specs.Dead.{Dead};
ghost use Rattle.kept_rules.specs.Left.{AllInside, maps_in, rule_left, rule_size};

use area::{over, put};
use bits::{has_bit, put_bit};
use kept_rules::{Maps, write_rule};
use member_sets::close_set;
use wire::word_inside;

// What is left of the rule at `at`, from `pos` on, where a rule whose place has a mark in `dead` is known to go. One that is found to go gets a mark, if there is room for it.
fn write_once(
    chained: bool,
    src: &[u8],
    at: usize,
    t: &[u32],
    maps: Maps,
    dead: &mut [u32],
    area: &mut [u8],
    pos: usize,
) -> usize
    requires { (rule_fault chained src.now at ≡ None) × AllInside t.now maps × (0 < pos) × (pos ≤ length area.old) × Dead (rule_left chained (maps_in t.now maps) src.now) dead.old }
    ensures { Leaves area.old pos (rule_left chained (maps_in t.now maps) src.now at) (rule_size chained src.now at) area.new result × Dead (rule_left chained (maps_in t.now maps) src.now) dead.new }
{
    if has_bit(dead, 0, at) {
        return 0;
    }
    let q = write_rule(chained, src, at, t, maps, area, pos);
    if q == 0 {
        put_bit(dead, 0, at);
    }
    q
}

// What is left of the set of rules at `at`, from `pos` on: its count, an offset for each rule that is left, and these rules; nothing if none is left. `dead` has marks at the places of rules that are known to go.
pub fn write_rules(
    chained: bool,
    src: &[u8],
    at: usize,
    t: &[u32],
    maps: Maps,
    dead: &mut [u32],
    area: &mut [u8],
    pos: usize,
) -> usize
    requires { (set_fault (rule_fault chained src.now) src.now at ≡ None) × (length src.now ≤ limit) × AllInside t.now maps × (pos ≤ length area.old) × Dead (rule_left chained (maps_in t.now maps) src.now) dead.old }
    ensures { Leaves area.old pos (block (set_words (rule_words chained)) (cut_set chained (maps_in t.now maps) (rule_set chained src.now at))) (set_most (rule_words chained) (cut_set chained (maps_in t.now maps) (rule_set chained src.now at)) src.now) area.new result × Dead (rule_left chained (maps_in t.now maps) src.now) dead.new }
{
    let n = word_inside(src, at);
    let first = pos + 2 + 2 * n;
    if area.len() < first {
        return over(area);
    }
    let mut k = 0;
    let mut p = first;
    for i in 0..n {
        let off = word_inside(src, at + 2 + 2 * i);
        if off == 0 {
            continue;
        }
        let q = write_once(chained, src, at + off, t, maps, dead, area, p);
        if area.len() < q {
            return q;
        }
        if q == 0 {
            continue;
        }
        put(area, pos + 2 + 2 * k, p - pos);
        k += 1;
        p = q;
    }
    close_set(area, pos, k, first, p)
}
