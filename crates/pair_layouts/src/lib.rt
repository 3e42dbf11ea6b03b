// Class kerning: the new table, of which cells hold the classes and the covered glyphs, written into the area and handed over.
#![tactic(auto)]

ghost use Rattle.std.specs.Prelude.{◌≡◌, ◌+◌, ◌≤◌, ◌<◌, length};
ghost use Rattle.std.proofs.lemmas.List.Edits.{sets};
ghost use Rattle.meaning.specs.Words.{flat};
ghost use Rattle.meaning.specs.Layout.{coverage_words, class_words};
ghost use Rattle.meaning.specs.Subset.{limit};
ghost use Rattle.area.specs.Part.{news, notes};
ghost use Rattle.tried.specs.Tries.{Tries};
ghost use Rattle.pair_layouts.specs.Kerning.{shared, head_words, fits_at, left_into};
ghost use Rattle.pair_layouts.specs.Laying.{EntriesIn, TailIn, one_table, Ended, Ordered, Ready};

use area::{put_three, put_two};
use area_parts::{write_classes, write_cover};
use cell_maps::Map;
use class_cells::write_cells;
use class_formats::new_formats;
use handing::hand_over;
use pair_sets::Formats;
use room::{HIGHEST, LIMIT, LONGEST};
use tried::{NotCut, no_room};

// Cells in a row: where the first stands, and how many there are.
#[derive(Clone, Copy)]
pub struct Noted {
    pub at: usize,
    pub len: usize,
}

// A class table in cells: the map of the classes that stay, how many these are, and the entries of the new table.
#[derive(Clone, Copy)]
pub struct Classed {
    pub map: Map,
    pub count: usize,
    pub entries: Noted,
}

// Where the coverage and the class tables stand behind the cells, and where the last of them ends.
#[derive(Clone, Copy)]
pub struct Ends {
    pub cover: usize,
    pub first: usize,
    pub second: usize,
    pub end: usize,
}

// Whether the second classes are not written again: the packed layout is asked for, and their entries are those of the first ones.
fn shares(t: &[u32], first: Noted, second: Noted, packing: usize) -> bool
    requires { EntriesIn t.now first × EntriesIn t.now second }
    ensures { result ≡ shared packing (notes t.now first.at first.len) (notes t.now second.at second.len) }
{
    if packing != 1 {
        return false;
    }
    &t[first.at..first.at + first.len] == &t[second.at..second.at + second.len]
}

// A coverage and one class table behind it, which is that of the first classes and of the second.
fn one_table(cover: usize, first: usize, end: usize) -> Ends
    ensures { result ≡ one_table cover first end }
{
    Ends {
        cover,
        first,
        second: first,
        end,
    }
}

// The coverage of the noted glyphs at `p`, and the class tables of these entries behind it, none twice if they are packed: where each stands, and where the last ends, which is past the area if that is too short for them.
fn write_tail(
    t: &[u32],
    cover: Noted,
    first: Noted,
    second: Noted,
    packing: usize,
    area: &mut [u8],
    p: usize,
) -> Ends
    requires { TailIn t.now cover first second × (p ≤ length area.old) × (length area.old ≤ limit) }
    ensures { Ended (shared packing (notes t.now first.at first.len) (notes t.now second.at second.len)) area.old p (coverage_words (news t.now cover.at cover.len)) (class_words (notes t.now first.at first.len)) (class_words (notes t.now second.at second.len)) area.new result }
{
    let q = write_cover(t, cover.at, cover.len, area, p);
    if area.len() < q {
        return one_table(p, q, q);
    }
    let r = write_classes(t, first.at, first.len, area, q);
    if area.len() < r {
        return one_table(p, q, r);
    }
    if shares(t, first, second, packing) {
        return one_table(p, q, r);
    }
    let end = write_classes(t, second.at, second.len, area, r);
    Ends {
        cover: p,
        first: q,
        second: r,
        end,
    }
}

// The header before the cells: the format, the offsets of coverage and class tables, the new value formats and the counts of classes.
fn write_head(area: &mut [u8], ends: Ends, f: Formats, rows: usize, columns: usize)
    requires { 16 ≤ length area.old }
    ensures { area.new ≡ sets area.old 0 (flat (head_words f.n1 f.n2 rows columns ends.cover ends.first ends.second)) }
{
    let p = put_three(area, 0, 2, ends.cover, f.n1);
    let q = put_three(area, p, f.n2, ends.first, ends.second);
    put_two(area, q, rows, columns);
}

// Whether the offsets fit words, of which the last is the highest, and the counts of the class tables.
fn fits(ends: Ends) -> bool
    requires { Ordered ends }
    ensures { result ≡ fits_at ends.first ends.second ends.end }
{
    if HIGHEST < ends.second {
        return false;
    }
    if LONGEST < ends.second - ends.first {
        return false;
    }
    ends.end - ends.second <= LONGEST
}

// What is left of the table, of which the cells hold the classes and the covered glyphs, written into the area and handed over if there is room.
pub fn lay_pairs(
    src: &[u8],
    t: &[u32],
    cover: Noted,
    first: Classed,
    second: Classed,
    packing: usize,
    area: &mut [u8],
    out: &mut [u8],
) -> Result<usize, NotCut>
    requires { Ready src.now t.now cover first second × (length area.old ≤ limit) }
    ensures { Tries (⊥) (length area.old < limit) result out.old out.new (left_into packing out.old src.now t.now cover first second) }
{
    if area.len() < 16 {
        return Err(NotCut::Short);
    }
    let f = new_formats(src, t, first.map, second.map);
    let p = write_cells(src, f, t, first.map, second.map, area, 16);
    if area.len() < p {
        return Err(no_room(area, LIMIT));
    }
    let ends = write_tail(t, cover, first.entries, second.entries, packing, area, p);
    if area.len() < ends.end {
        return Err(no_room(area, LIMIT));
    }
    write_head(area, ends, f, first.count, second.count);
    Ok(hand_over(area, 0, 0, ends.end, fits(ends), out)?)
}
