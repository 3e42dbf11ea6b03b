// Pairs by class: whether the first class of each covered glyph and the second class of any glyph are below their counts.
// Class tables are gone over by their stretches, a range or an id of an array each, never glyph by glyph, and a coverage is searched only for those whose class is not below its count.
#![tactic(auto)]

ghost use Rattle.std.specs.Prelude.{◌≡◌, true, ◌&&◌, ◌+◌, ◌*◌, ◌<◌, length, get_or, ltb};
ghost use Rattle.meaning.specs.Words.{every};
ghost use Rattle.meaning.specs.Parts.{coverage, coverage_sound, classes, classes_sound, class_of};
ghost use Rattle.meaning.specs.Fault.{first_below, second_below, classes_below};
ghost use Rattle.covered_between.specs.Stretches.{stretches};

use covered_between::{Stretch, past};
use view::{header, subtable_place};
use wire::word_at;

// How many stretches the class table at `at` has: ids of its array, or ranges.
fn count(src: &[u8], at: usize) -> usize
    requires { at < 65536 }
    ensures { (result ≡ length (stretches src.now at)) × (result < 65536) }
{
    if word_at(src, at) == 1 {
        return word_at(src, at + 4);
    }
    word_at(src, at + 2)
}

// The i-th stretch of the class table at `at`.
fn stretch_at(src: &[u8], at: usize, i: usize) -> Stretch
    requires { (at < 65536) × (i < 65536) × (i < length (stretches src.now at)) }
    ensures { get_or (stretches src.now at) i (0, 0, 0) ≡ (result.first, result.last, result.class) }
{
    if word_at(src, at) == 1 {
        let glyph = word_at(src, at + 2) + i;
        return Stretch {
            first: glyph,
            last: glyph,
            class: word_at(src, at + 6 + 2 * i),
        };
    }
    let p = at + 4 + 6 * i;
    Stretch {
        first: word_at(src, p),
        last: word_at(src, p + 2),
        class: word_at(src, p + 4),
    }
}

// Whether each class that the sound class table at `at` lists is below `n`.
fn listed_below(src: &[u8], at: usize, n: usize) -> bool
    requires { (classes_sound src.now at ≡ true) × (at < 65536) × (0 < n) }
    ensures { result ≡ every (λ e. ltb e.1 n) (classes src.now at) }
{
    let k = count(src, at);
    for i in 0..k {
        if n <= stretch_at(src, at, i).class {
            return false;
        }
    }
    true
}

// Whether the class of each glyph of the sound coverage at `cover` is below `n` in the sound class table at `at`.
fn covered_below(src: &[u8], cover: usize, at: usize, n: usize) -> bool
    requires { (coverage_sound src.now cover ≡ true) × (cover < 65536) × (classes_sound src.now at ≡ true) × (at < 65536) × (0 < n) }
    ensures { result ≡ every (λ g. ltb (class_of (classes src.now at) g) n) (coverage src.now cover) }
{
    let k = count(src, at);
    for i in 0..k {
        if past(src, cover, stretch_at(src, at, i), n) {
            return false;
        }
    }
    true
}

// Whether the first class of each covered glyph is below `n`; not judged where the coverage is null, or it or the first class table is faulty.
#[tactic(auto, unfolding(meaning::specs::Fault::first_below, meaning::specs::Fault::coverage_fault, meaning::specs::Fault::classes_fault, meaning::specs::Fault::part_fault))]
fn first_below(src: &[u8], n: usize) -> bool
    ensures { result ≡ first_below src.now n }
{
    let cover = subtable_place(src, 2);
    if cover == 0 {
        return true;
    }
    if coverage::check(src, cover).is_some() {
        return true;
    }
    let at = subtable_place(src, 8);
    if classes::check(src, at).is_some() {
        return true;
    }
    if n == 0 {
        return coverage_glyphs::count(src, cover) == 0;
    }
    covered_below(src, cover, at, n)
}

// Whether the second class of any glyph is below `n`: 0, and each that is listed; not judged where the second class table is faulty.
#[tactic(auto, unfolding(meaning::specs::Fault::second_below, meaning::specs::Fault::classes_fault, meaning::specs::Fault::part_fault))]
fn second_below(src: &[u8], n: usize) -> bool
    ensures { result ≡ second_below src.now n }
{
    let at = subtable_place(src, 10);
    if classes::check(src, at).is_some() {
        return true;
    }
    if n == 0 {
        return false;
    }
    listed_below(src, at, n)
}

// Whether classes are below their counts; not judged where one of the class tables is null.
#[tactic(auto, unfolding(meaning::specs::Fault::classes_below))]
pub fn classes_below(src: &[u8]) -> bool
    ensures { result ≡ classes_below src.now }
{
    if subtable_place(src, 8) == 0 {
        return true;
    }
    if subtable_place(src, 10) == 0 {
        return true;
    }
    first_below(src, header(src, 12)) && second_below(src, header(src, 14))
}
