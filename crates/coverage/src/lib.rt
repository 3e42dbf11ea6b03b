// Coverage tables: the covered glyphs in order, listed one by one (format 1) or in ranges (format 2). Checked.
#![tactic(auto)]

ghost use Rattle.std.specs.Prelude.{◌≡◌, true, ◌&&◌, ◌+◌, ◌*◌, ◌<◌, leb, eqb};
ghost use Rattle.meaning.specs.Words.{triples};
ghost use Rattle.meaning.specs.Parts.{ranges_ascend, ranges_count, coverage_sound};
ghost use Rattle.meaning.specs.Fault.{coverage_fault};

use wire::{ascending, inside, word_at};

// Whether the range from `first` to `last` may stand where `low` is the lowest glyph that is left, and its index is the number of glyphs before it.
fn range_fits(low: usize, before: usize, first: usize, last: usize, index: usize) -> bool
    ensures { result ≡ leb low first && (leb first last && eqb index before) }
{
    if first < low {
        return false;
    }
    if last < first {
        return false;
    }
    index == before
}

// Whether the `n` ranges from `at` on ascend without overlap, and the index of each is the number of glyphs before it.
fn ranges_sound(src: &[u8], at: usize, n: usize) -> bool
    requires { at + 6 * n < 0x1_0000_0000_0000_0000 }
    ensures { result ≡ ranges_ascend 0 (triples src.now at n) && ranges_count 0 (triples src.now at n) }
{
    let mut low = 0;
    let mut before = 0;
    for i in 0..n {
        let first = word_at(src, at + 6 * i);
        let last = word_at(src, at + 6 * i + 2);
        if !range_fits(low, before, first, last, word_at(src, at + 6 * i + 4)) {
            return false;
        }
        low = last + 1;
        before += last + 1 - first;
    }
    true
}

// Whether the coverage at `at` lies inside the source, has format 1 or 2 and ascends.
fn sound(src: &[u8], at: usize) -> bool
    requires { at < 0x1_0000_0000_0000 }
    ensures { result ≡ coverage_sound src.now at }
{
    if !inside(src, at, 4) {
        return false;
    }
    let format = word_at(src, at);
    let n = word_at(src, at + 2);
    match format {
        1 => inside(src, at, 4 + 2 * n) && ascending(src, at + 4, n, 2),
        2 => inside(src, at, 4 + 6 * n) && ranges_sound(src, at + 4, n),
        _ => false,
    }
}

// Where the coverage at `at` is faulty: at its start, or nowhere.
#[tactic(auto, unfolding(meaning::specs::Fault::coverage_fault, meaning::specs::Fault::part_fault))]
pub fn check(src: &[u8], at: usize) -> Option<usize>
    requires { at < 0x1_0000_0000_0000 }
    ensures { result ≡ coverage_fault src.now at }
{
    if sound(src, at) {
        return None;
    }
    Some(at)
}
