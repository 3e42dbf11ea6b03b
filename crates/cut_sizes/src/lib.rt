// The sizes of scratch: those that are enough for any source, those that our own comes in, and which of these a source is likely to need.
#![tactic(auto)]

ghost use Rattle.std.specs.Prelude.{◌≡◌, false, ◌≤◌, ◌<◌};
ghost use Rattle.cut_sizes.specs.Cutting.{pairs_by_class};

use fold_pairs::cells;
use room::AREA;
use wire::word_at;

// The cells and the bytes that are enough for any source.
pub const CELLS: usize = pair_classes::CELLS;

pub const BYTES: usize = AREA;

// The cells that are enough for any source but a pair table by classes; for that the limit's bytes are enough.
pub const OTHER_CELLS: usize = covers::CELLS;

// Scratch of our own comes in sizes that are enough for most sources, so that little is cleared for a small job.
pub const LITTLE_CELLS: usize = 512;

pub const LITTLE_BYTES: usize = 1024;

pub const SOME_CELLS: usize = 4608;

pub const SOME_BYTES: usize = 8192;

pub const MORE_CELLS: usize = 12288;

pub const MORE_BYTES: usize = 24576;

pub const MUCH_CELLS: usize = 40960;

pub const MUCH_BYTES: usize = 65536;

// Whether a source of this kind is a pair table by classes.
pub fn pairs_by_class(kind: usize, src: &[u8]) -> bool
    ensures { result ≡ pairs_by_class kind src.now }
{
    if kind != 4 {
        return false;
    }
    word_at(src, 0) != 1
}

// No more than there are glyphs.
fn of_all(n: usize) -> usize
    ensures { result ≤ 65536 }
{
    n.min(65536)
}

// How many glyphs of the map the cut is likely to meet: all of a map of pairs; of runs no more than lie between the first old id and the last, nor than half the source's length.
fn likely_glyphs(src: &[u8], glyphs: &[u8], form: usize) -> usize
    ensures { result ≤ 65536 }
{
    if form != 6 {
        return of_all(glyphs.len() / 4);
    }
    if glyphs.len() < 6 {
        return 0;
    }
    let most = of_all(src.len() / 2);
    let last = glyphs.len() / 6 * 6 - 6;
    let first = word_at(glyphs, 0);
    let end = word_at(glyphs, last) + word_at(glyphs, last + 4);
    if end < first {
        return 0;
    }
    if first + most < end {
        return most;
    }
    end - first
}

// How many cells the glyph map is likely to take: as many as its pairs are laid into first, or four for each run.
fn map_cells(glyphs: &[u8], form: usize) -> usize
    ensures { result ≤ 65536 }
{
    if form != 6 {
        return cells(glyphs);
    }
    of_all(4 * (glyphs.len() / 6) + 3)
}

// How many cells the cut is likely to use; no more than a guess, which saves the clearing of scratch. In a context by classes both maps take the same cells, and so do the lists of classes.
fn likely_cells(kind: usize, src: &[u8], glyphs: &[u8], form: usize, lookups: &[u8]) -> usize {
    let n = likely_glyphs(src, glyphs, form);
    let asked = cells(lookups);
    let laid = map_cells(glyphs, form);
    if pairs_by_class(kind, src) {
        return laid + 4 * n + 257;
    }
    if 2 < kind || word_at(src, 0) != 2 {
        return asked + laid + n + 1;
    }
    if asked < laid {
        return laid + 2 * n + 257;
    }
    asked + 2 * n + 257
}

// How many bytes of area it is likely to use: not much more than the source has, and not more than some for each glyph, few for a context by coverages.
fn likely_bytes(kind: usize, src: &[u8], glyphs: &[u8], form: usize) -> usize {
    let n = likely_glyphs(src, glyphs, form);
    if kind <= 2 && word_at(src, 0) == 3 {
        return 2 * n + 512;
    }
    if 4 * n < src.len() / 32 {
        return 128 * n;
    }
    src.len() / 2 * 3
}

// The size to begin with, as `cut` has them: the first that is likely to do, and never the largest, since its clearing takes long.
pub fn likely_size(kind: usize, src: &[u8], glyphs: &[u8], form: usize, lookups: &[u8]) -> usize {
    let cells = likely_cells(kind, src, glyphs, form, lookups);
    let bytes = likely_bytes(kind, src, glyphs, form);
    if cells <= LITTLE_CELLS && bytes <= LITTLE_BYTES {
        return 0;
    }
    if cells <= SOME_CELLS && bytes <= SOME_BYTES {
        return 1;
    }
    if cells <= MORE_CELLS && bytes <= MORE_BYTES {
        return 2;
    }
    3
}
