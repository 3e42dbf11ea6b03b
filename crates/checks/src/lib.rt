// Malformed, over the whole source: the header of each kind and format, and through its offsets every part, retained or not. And a format that the kind has not.
#![tactic(auto)]

ghost use Rattle.std.specs.Prelude.{◌≡◌, true, false, ◌&&◌, not, ◌+◌, ◌*◌, ◌<◌};
ghost use Rattle.meaning.specs.Words.{word, inside};
ghost use Rattle.meaning.specs.Subset.{last_format, has_format};
ghost use Rattle.meaning.specs.Fault.{lowest, header_fault, covers_fault, context_fault, pair_fault, fault};
ghost use Rattle.check_parts.specs.Parts.{fault_of_part, by_glyph_fault, by_class_fault, ligatures_fault, pair_fields, glyph_pairs_fault, class_pairs_fault};

use check_parts::{Part, check_through, enough_sets};
use class_counts::{good_formats, good_header};
use faults::lowest;
use view::header;
use wire::{inside, word_at};

// The last format of a kind: 3 for contexts, 1 for ligatures, 2 for pairs and single substitutions.
#[tactic(auto, unfolding(meaning::specs::Subset::last_format))]
fn last_format(kind: usize) -> usize
    ensures { result ≡ last_format kind }
{
    if kind <= 2 {
        return 3;
    }
    if kind == 3 {
        return 1;
    }
    2
}

// Whether the kind has this format: from 1 to its last.
#[tactic(auto, unfolding(meaning::specs::Subset::has_format))]
fn has_format(kind: usize, format: usize) -> bool
    ensures { result ≡ has_format kind format }
{
    if format < 1 {
        return false;
    }
    format <= last_format(kind)
}

// Whether the first two bytes stand and hold a format the kind hasn't.
pub fn other_format(kind: usize, src: &[u8]) -> bool
    ensures { result ≡ inside src.now 0 2 && not (has_format kind (word src.now 0)) }
{
    if !inside(src, 0, 2) {
        return false;
    }
    !has_format(kind, word_at(src, 0))
}

// The lowest fault of a table whose header ends with a count at `slot` and as many offsets to sets: the coverage's offset stands at 2, and those of class tables from 4 on.
// `good` says whether the header's other fields are.
#[tactic(auto, unfolding(meaning::specs::Fault::header_fault, meaning::specs::Fault::part_fault))]
fn check_header(src: &[u8], good: bool, tables: usize, slot: usize, part: Part) -> Option<usize>
    requires { (tables < 4) × (slot < 16) }
    ensures { result ≡ header_fault good tables slot (fault_of_part part src.now) src.now }
{
    if !inside(src, 0, slot + 2) {
        return Some(0);
    }
    let n = word_at(src, slot);
    if !inside(src, slot + 2, 2 * n) {
        return Some(0);
    }
    if !good {
        return Some(0);
    }
    let cover = check_through(Part::Coverage, src, 2, 1);
    let classes = check_through(Part::Classes, src, 4, tables);
    let sets = check_through(part, src, slot + 2, n);
    lowest(cover, lowest(classes, sets))
}

// Format 3 of a plain context: the counts first, then the coverages' offsets and the records.
#[tactic(auto, unfolding(meaning::specs::Fault::covers_fault, meaning::specs::Fault::part_fault))]
fn check_plain_covers(src: &[u8]) -> Option<usize>
    ensures { result ≡ covers_fault false src.now }
{
    if !inside(src, 0, 6) {
        return Some(0);
    }
    let n = word_at(src, 2);
    if !inside(src, 6, 2 * n + 4 * word_at(src, 4)) {
        return Some(0);
    }
    check_through(Part::Coverage, src, 6, n)
}

// Format 3 of a chained context: each count before its array.
fn check_chained_covers(src: &[u8]) -> Option<usize>
    ensures { result ≡ covers_fault true src.now }
{
    let b = word_at(src, 2);
    let input = 4 + 2 * b;
    let i = word_at(src, input);
    let ahead = input + 2 + 2 * i;
    let a = word_at(src, ahead);
    let records = ahead + 2 + 2 * a;
    // Each count lies before the next one, so that the last array's end says it of all.
    if !inside(src, records, 2 + 4 * word_at(src, records)) {
        return Some(0);
    }
    let back = check_through(Part::Coverage, src, 4, b);
    let middle = check_through(Part::Coverage, src, input + 2, i);
    let front = check_through(Part::Coverage, src, ahead + 2, a);
    lowest(back, lowest(middle, front))
}

// Format 3, plain or chained.
fn check_covers(chained: bool, src: &[u8]) -> Option<usize>
    ensures { result ≡ covers_fault chained src.now }
{
    if chained {
        return check_chained_covers(src);
    }
    check_plain_covers(src)
}

// Format 2: a chained context has three class tables, a plain one has one.
fn check_by_class(chained: bool, src: &[u8]) -> Option<usize>
    ensures { result ≡ by_class_fault chained src.now }
{
    if chained {
        return check_header(src, true, 3, 10, Part::ChainedRules);
    }
    check_header(src, true, 1, 6, Part::Rules)
}

// Format 1: a set for each covered glyph.
fn check_by_glyph(chained: bool, src: &[u8]) -> Option<usize>
    ensures { result ≡ by_glyph_fault chained src.now }
{
    let good = enough_sets(src, header(src, 4));
    if chained {
        return check_header(src, good, 0, 4, Part::ChainedRules);
    }
    check_header(src, good, 0, 4, Part::Rules)
}

// A context, plain or chained, by its format.
#[tactic(auto, unfolding(meaning::specs::Fault::context_fault))]
fn check_context(chained: bool, src: &[u8]) -> Option<usize>
    ensures { result ≡ context_fault chained src.now }
{
    let format = header(src, 0);
    match format {
        1 => check_by_glyph(chained, src),
        2 => check_by_class(chained, src),
        _ => check_covers(chained, src),
    }
}

// A ligature table.
fn check_ligatures(src: &[u8]) -> Option<usize>
    ensures { result ≡ ligatures_fault src.now }
{
    check_header(src, enough_sets(src, header(src, 4)), 0, 4, Part::Ligatures)
}

// Whether the bits 0xFF00 of both value formats are zero, and there is a set for each covered glyph.
fn pair_fields(src: &[u8]) -> bool
    ensures { result ≡ pair_fields src.now }
{
    good_formats(src) && enough_sets(src, header(src, 8))
}

// Pairs by glyph.
fn check_glyph_pairs(src: &[u8]) -> Option<usize>
    ensures { result ≡ glyph_pairs_fault src.now }
{
    check_header(src, pair_fields(src), 0, 8, Part::Pairs)
}

// Pairs by class: the header with its cells, then coverage and class tables.
#[tactic(auto, unfolding(meaning::specs::Fault::part_fault))]
fn check_class_pairs(src: &[u8]) -> Option<usize>
    ensures { result ≡ class_pairs_fault src.now }
{
    if !good_header(src) {
        return Some(0);
    }
    let cover = check_through(Part::Coverage, src, 2, 1);
    let tables = check_through(Part::Classes, src, 8, 2);
    lowest(cover, tables)
}

// A pair table, by its format.
#[tactic(auto, unfolding(meaning::specs::Fault::pair_fault))]
fn check_pairs(src: &[u8]) -> Option<usize>
    ensures { result ≡ pair_fault src.now }
{
    if header(src, 0) == 1 {
        return check_glyph_pairs(src);
    }
    check_class_pairs(src)
}

// Where the lowest faulty part of a source of this kind starts, if one is faulty: 1 context, 2 chained, 3 ligature, 4 pair, and single substitution for any other.
#[tactic(auto, unfolding(meaning::specs::Fault::fault, meaning::specs::Fault::part_fault))]
pub fn check(kind: usize, src: &[u8]) -> Option<usize>
    ensures { result ≡ fault kind src.now }
{
    if !inside(src, 0, 2) {
        return Some(0);
    }
    match kind {
        1 => check_context(false, src),
        2 => check_context(true, src),
        3 => check_ligatures(src),
        4 => check_pairs(src),
        _ => single_checks::check(src),
    }
}
