// Whether a coverage has a glyph between two, and so whether a class that is not below its count is held by a covered glyph.
#![tactic(auto)]

ghost use Rattle.std.specs.Prelude.{◌≡◌, true, ◌&&◌, not, ◌+◌, ◌*◌, ◌≤◌, ◌<◌, ltb};
ghost use Rattle.meaning.specs.Words.{words, triples};
ghost use Rattle.meaning.specs.Parts.{range_glyphs, coverage, coverage_sound};
ghost use Rattle.coverage_index.specs.Index.{SoundList, SoundRanges};
ghost use Rattle.covered_between.specs.Stretches.{any_between};

use halving::reach;
use wire::word_at;

// Glyphs in a row that a class table gives one class.
#[derive(Clone, Copy)]
pub struct Stretch {
    pub first: usize,
    pub last: usize,
    pub class: usize,
}

// Whether one of the `n` glyphs that are listed from `at` on is from `first` to `last`: the first that is not below decides.
fn lists_between(src: &[u8], at: usize, n: usize, first: usize, last: usize) -> bool
    requires { SoundList src.now at n × (at < 65540) }
    ensures { result ≡ any_between first last (words src.now at n) }
{
    let i = reach(src, at, 2, n, 0, 0, first);
    if n <= i {
        return false;
    }
    word_at(src, at + 2 * i) <= last
}

// Whether one of the glyphs that the `n` ranges from `at` on cover is from `first` to `last`: the first range that does not end below decides.
fn ranges_between(src: &[u8], at: usize, n: usize, first: usize, last: usize) -> bool
    requires { SoundRanges src.now at n × (at < 65540) × (first ≤ last) }
    ensures { result ≡ any_between first last (range_glyphs (triples src.now at n)) }
{
    let i = reach(src, at + 2, 6, n, 0, 0, first);
    if n <= i {
        return false;
    }
    word_at(src, at + 6 * i) <= last
}

// Whether a glyph of the sound coverage at `at` is from `first` to `last`.
fn covers_between(src: &[u8], at: usize, first: usize, last: usize) -> bool
    requires { (coverage_sound src.now at ≡ true) × (at < 65536) × (first ≤ last) }
    ensures { result ≡ any_between first last (coverage src.now at) }
{
    let n = word_at(src, at + 2);
    if word_at(src, at) == 1 {
        return lists_between(src, at + 4, n, first, last);
    }
    ranges_between(src, at + 4, n, first, last)
}

// Whether a stretch is past the count `n`: its class is not below, and a glyph of the sound coverage at `cover` is in it.
pub fn past(src: &[u8], cover: usize, s: Stretch, n: usize) -> bool
    requires { (coverage_sound src.now cover ≡ true) × (cover < 65536) × (s.first ≤ s.last) }
    ensures { result ≡ not (ltb s.class n) && any_between s.first s.last (coverage src.now cover) }
{
    if s.class < n {
        return false;
    }
    covers_between(src, cover, s.first, s.last)
}
