// GSUB single substitutions, by a delta (format 1) or by a substitute for each covered glyph (format 2): checked.
#![tactic(auto)]

ghost use Rattle.std.specs.Prelude.{◌≡◌};
ghost use Rattle.meaning.specs.Fault.{equal_count, single_fault};
ghost use Rattle.single_checks.specs.Header.{good_header};

use view::{header, subtable_place};
use wire::inside;

// Whether there is a substitute for each covered glyph, and no other, where there are `n`; not judged where the coverage is null or faulty.
#[tactic(auto, unfolding(meaning::specs::Fault::equal_count, meaning::specs::Fault::coverage_fault, meaning::specs::Fault::part_fault))]
fn equal_count(src: &[u8], n: usize) -> bool
    ensures { result ≡ equal_count src.now n }
{
    let at = subtable_place(src, 2);
    if at == 0 {
        return true;
    }
    if coverage::check(src, at).is_some() {
        return true;
    }
    coverage_glyphs::count(src, at) == n
}

// Whether the header lies inside, with its delta, or with its substitutes, of which there are as many as covered glyphs.
fn good_header(src: &[u8]) -> bool
    ensures { result ≡ good_header src.now }
{
    if !inside(src, 0, 6) {
        return false;
    }
    if header(src, 0) == 1 {
        return true;
    }
    let n = header(src, 4);
    inside(src, 6, 2 * n) && equal_count(src, n)
}

// Where the lowest faulty part of a single substitution starts, header or coverage, if one is faulty.
#[tactic(auto, unfolding(meaning::specs::Fault::single_fault, meaning::specs::Fault::fault_through, meaning::specs::Fault::part_fault, meaning::specs::Fault::lowest))]
pub fn check(src: &[u8]) -> Option<usize>
    ensures { result ≡ single_fault src.now }
{
    if !good_header(src) {
        return Some(0);
    }
    let cover = subtable_place(src, 2);
    if cover == 0 {
        return None;
    }
    coverage::check(src, cover)
}
