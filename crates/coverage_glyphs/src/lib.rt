// The glyphs of a sound coverage, counted, and read by their coverage indices.
#![tactic(auto)]

ghost use Rattle.std.specs.Prelude.{◌≡◌, true, ◌+◌, ◌*◌, ◌<◌, length};
ghost use Rattle.meaning.specs.Words.{triples};
ghost use Rattle.meaning.specs.Parts.{range_glyphs, coverage, coverage_sound};
ghost use Rattle.coverage_glyphs.specs.Answers.{Counts, Gives, SoundRanges};

use wire::word_at;

// How many glyphs the `n` ranges from `at` on cover: the last one's index says how many are before it.
fn ranges_count(src: &[u8], at: usize, n: usize) -> usize
    requires { SoundRanges src.now at n }
    ensures { Counts (range_glyphs (triples src.now at n)) result }
{
    if n == 0 {
        return 0;
    }
    let p = at + 6 * (n - 1);
    let first = word_at(src, p);
    let last = word_at(src, p + 2);
    word_at(src, p + 4) + (last + 1 - first)
}

// How many glyphs the coverage at `at` covers.
pub fn count(src: &[u8], at: usize) -> usize
    requires { coverage_sound src.now at ≡ true }
    ensures { Counts (coverage src.now at) result }
{
    let n = word_at(src, at + 2);
    if word_at(src, at) == 1 {
        return n;
    }
    ranges_count(src, at + 4, n)
}

// The glyph that has index `i` among those that the `n` ranges from `at` on cover: by halving, the last range whose own index is at most `i` holds it.
fn range_glyph(src: &[u8], at: usize, n: usize, i: usize) -> usize
    requires { SoundRanges src.now at n × (i < length (range_glyphs (triples src.now at n))) }
    ensures { Gives (range_glyphs (triples src.now at n)) i result }
{
    let mut lo = 0;
    let mut hi = n;
    while lo + 1 < hi {
        let mid = lo + (hi - lo) / 2;
        if word_at(src, at + 6 * mid + 4) <= i {
            lo = mid;
        } else {
            hi = mid;
        }
    }
    let index = word_at(src, at + 6 * lo + 4);
    word_at(src, at + 6 * lo) + (i - index)
}

// The glyph that has the coverage index `i` in the coverage at `at`.
pub fn glyph_at(src: &[u8], at: usize, i: usize) -> usize
    requires { (coverage_sound src.now at ≡ true) × (i < length (coverage src.now at)) }
    ensures { Gives (coverage src.now at) i result }
{
    let n = word_at(src, at + 2);
    if word_at(src, at) == 1 {
        return word_at(src, at + 4 + 2 * i);
    }
    range_glyph(src, at + 4, n, i)
}
