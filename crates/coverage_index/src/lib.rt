// The coverage index of a glyph: its place among the covered glyphs, found by halving.
#![tactic(auto)]

ghost use Rattle.std.specs.Prelude.{◌≡◌, true, ◌<◌};
ghost use Rattle.meaning.specs.Words.{words, triples};
ghost use Rattle.meaning.specs.Parts.{range_glyphs, coverage, coverage_sound};
ghost use Rattle.coverage_index.specs.Index.{index_of, SoundList, SoundRanges};

use halving::reach;
use wire::word_inside;

// The index of a glyph among the `n` glyphs that are listed from `at` on: the first that is not below it decides.
fn list_index(src: &[u8], at: usize, n: usize, glyph: usize) -> Option<usize>
    requires { SoundList src.now at n }
    ensures { result ≡ index_of (words src.now at n) glyph }
{
    let i = reach(src, at, 2, n, 0, 0, glyph);
    if n <= i {
        return None;
    }
    if glyph < word_inside(src, at + 2 * i) {
        return None;
    }
    Some(i)
}

// The index of a glyph among those that the `n` ranges from `at` on cover: the first range that ends at the glyph or later decides.
fn range_index(src: &[u8], at: usize, n: usize, glyph: usize) -> Option<usize>
    requires { SoundRanges src.now at n × (glyph < 65536) }
    ensures { result ≡ index_of (range_glyphs (triples src.now at n)) glyph }
{
    let i = reach(src, at + 2, 6, n, 0, 0, glyph);
    if n <= i {
        return None;
    }
    let first = word_inside(src, at + 6 * i);
    if glyph < first {
        return None;
    }
    Some(word_inside(src, at + 6 * i + 4) + (glyph - first))
}

// The coverage index of a glyph in the sound coverage at `at`, if it is covered.
pub fn index_of(src: &[u8], at: usize, glyph: usize) -> Option<usize>
    requires { (coverage_sound src.now at ≡ true) × (glyph < 65536) }
    ensures { result ≡ index_of (coverage src.now at) glyph }
{
    let n = word_inside(src, at + 2);
    if word_inside(src, at) == 1 {
        return list_index(src, at + 4, n, glyph);
    }
    range_index(src, at + 4, n, glyph)
}
