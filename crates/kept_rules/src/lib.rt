// One rule of a context, plain or chained: what is left of it, written into the area in one walk.
#![tactic(auto)]

ghost use Rattle.std.specs.Prelude.{◌≡◌, true, false, ◌+◌, ◌≤◌, ◌<◌, length, None};
ghost use Rattle.meaning.specs.Tables.{rule};
ghost use Rattle.meaning.specs.Fault.{rule_fault};
ghost use Rattle.meaning.specs.Cut.{cut_rule};
ghost use Rattle.meaning.specs.Layout.{block, rule_words};
ghost use Rattle.numbers.specs.Leaves.{Leaves};
ghost use Rattle.kept_rules.specs.Left.{AllInside, maps_in, rule_size, ahead_on, ahead_size, input_on, input_size};

use area::{over, put_two};
use cell_maps::Map;
use lookup_records::{write_counted_records, write_records};
use numbers::{ended, renumber, write_counted};
use wire::word_inside;

// The maps that a rule's numbers and the lookups of its records go through.
#[derive(Clone, Copy)]
pub struct Maps {
    pub back: Map,
    pub input: Map,
    pub ahead: Map,
    pub lookups: Map,
}

// What is left of the plain rule at `at`, from `pos` on: nothing if its glyph count is 0 or a number of its input has no new one.
fn write_plain(src: &[u8], at: usize, t: &[u32], maps: Maps, area: &mut [u8], pos: usize) -> usize
    requires { (rule_fault false src.now at ≡ None) × AllInside t.now maps × (pos ≤ length area.old) }
    ensures { Leaves area.old pos (block (rule_words false) (cut_rule false (maps_in t.now maps) (rule false src.now at))) (rule_size false src.now at) area.new result }
{
    let count = word_inside(src, at);
    if count == 0 {
        return 0;
    }
    let n = count - 1;
    let records = word_inside(src, at + 2);
    if area.len() < pos + 4 + 2 * n + 4 * records {
        return over(area);
    }
    let q = renumber(src, at + 4, n, t, maps.input, area, pos + 4);
    if q == 0 {
        return 0;
    }
    let end = write_records(src, at + 4 + 2 * n, records, t, maps.lookups, area, q);
    put_two(area, pos, count, (end - q) / 4);
    end
}

// What is left of a chained rule from its lookahead on, which stands at `at`: nothing if a number of the lookahead has no new one.
fn write_ahead(src: &[u8], at: usize, t: &[u32], maps: Maps, area: &mut [u8], pos: usize) -> usize
    requires { (at + ahead_size src.now at ≤ length src.now) × AllInside t.now maps × (0 < pos) × (pos ≤ length area.old) }
    ensures { Leaves area.old pos (ahead_on (maps_in t.now maps) src.now at) (ahead_size src.now at) area.new result }
{
    let n = word_inside(src, at);
    let p = write_counted(n, src, at + 2, n, t, maps.ahead, area, pos);
    if ended(area, p) {
        return p;
    }
    let next = at + 2 + 2 * n;
    let records = word_inside(src, next);
    write_counted_records(src, next + 2, records, t, maps.lookups, area, p)
}

// What is left of a chained rule from its input on, which stands at `at`.
fn write_input(src: &[u8], at: usize, t: &[u32], maps: Maps, area: &mut [u8], pos: usize) -> usize
    requires { (at + input_size src.now at ≤ length src.now) × AllInside t.now maps × (0 < pos) × (pos ≤ length area.old) }
    ensures { Leaves area.old pos (input_on (maps_in t.now maps) src.now at) (input_size src.now at) area.new result }
{
    let count = word_inside(src, at);
    let n = count.saturating_sub(1);
    let p = write_counted(count, src, at + 2, n, t, maps.input, area, pos);
    if ended(area, p) {
        return p;
    }
    write_ahead(src, at + 2 + 2 * n, t, maps, area, p)
}

// What is left of the chained rule at `at`, from `pos` on: nothing if one of its numbers has no new one.
fn write_chained(src: &[u8], at: usize, t: &[u32], maps: Maps, area: &mut [u8], pos: usize) -> usize
    requires { (rule_fault true src.now at ≡ None) × AllInside t.now maps × (0 < pos) × (pos ≤ length area.old) }
    ensures { Leaves area.old pos (block (rule_words true) (cut_rule true (maps_in t.now maps) (rule true src.now at))) (rule_size true src.now at) area.new result }
{
    let n = word_inside(src, at);
    let p = write_counted(n, src, at + 2, n, t, maps.back, area, pos);
    if ended(area, p) {
        return p;
    }
    write_input(src, at + 2 + 2 * n, t, maps, area, p)
}

// What is left of the rule at `at`, from `pos` on.
pub fn write_rule(
    chained: bool,
    src: &[u8],
    at: usize,
    t: &[u32],
    maps: Maps,
    area: &mut [u8],
    pos: usize,
) -> usize
    requires { (rule_fault chained src.now at ≡ None) × AllInside t.now maps × (0 < pos) × (pos ≤ length area.old) }
    ensures { Leaves area.old pos (block (rule_words chained) (cut_rule chained (maps_in t.now maps) (rule chained src.now at))) (rule_size chained src.now at) area.new result }
{
    if chained {
        return write_chained(src, at, t, maps, area, pos);
    }
    write_plain(src, at, t, maps, area, pos)
}
