// Sequences of numbers held against the glyphs of a string: numbers are glyphs, classes, or the offsets of coverages. A string is `n` glyphs in a slice, two bytes a glyph.
#![tactic(auto)]

ghost use Rattle.std.specs.Prelude.{◌≡◌, true, ◌+◌, ◌*◌, ◌≤◌, ◌<◌, drop};
ghost use Rattle.meaning.specs.Words.{words};
ghost use Rattle.meaning.specs.Parts.{coverage_sound};
ghost use Rattle.meaning.specs.Matching.{covers?};
ghost use Rattle.replay_laws.specs.Places.{backward};
ghost use Rattle.holding.specs.Held.{cover_at, held, Fine, SoundNumber, runs_on};
ghost use Rattle.holding.specs.Fitting.{FineParts, sequence_of, parts_fit};

use class_stretches::class_of;
use coverage_index::index_of;
use rules::{Row, RuleParts};
use wire::word_at;

// A sequence of numbers, and how they are held against glyphs: as glyphs (sort 0), as classes (sort 1) of the class table at `table`, or as offsets of coverages (any other sort).
#[derive(Clone, Copy)]
pub struct Sequence {
    pub sort: usize,
    pub table: usize,
    pub at: usize,
    pub len: usize,
}

// How the numbers of a rule are held: their sort, and the class tables of its backtrack, its input and its lookahead.
#[derive(Clone, Copy)]
pub struct How {
    pub sort: usize,
    pub back: usize,
    pub input: usize,
    pub ahead: usize,
}

// Whether the coverage at `at` has the glyph; a null one has none.
pub fn covers(src: &[u8], at: usize, glyph: usize) -> bool
    requires { ((at ≡ 0 → ⊥) → coverage_sound src.now at ≡ true) × (glyph < 65536) }
    ensures { result ≡ covers? (cover_at src.now at) glyph }
{
    if at == 0 {
        return false;
    }
    index_of(src, at, glyph).is_some()
}

// Whether a number holds for a glyph.
fn holds(src: &[u8], sort: usize, table: usize, number: usize, glyph: usize) -> bool
    requires { SoundNumber src.now sort table number × (glyph < 65536) }
    ensures { result ≡ held src.now sort table number glyph }
{
    if sort == 0 {
        return number == glyph;
    }
    if sort == 1 {
        return class_of(src, table, glyph) == number;
    }
    covers(src, number, glyph)
}

// Whether the numbers of a sequence hold for the glyphs from `place` on, one each.
fn fits_on(src: &[u8], q: Sequence, string: &[u8], n: usize, place: usize) -> bool
    requires { Fine src.now q × (place < 0x1_0000_0000_0000) }
    ensures { result ≡ runs_on src.now q (drop place (words string.now 0 n)) }
{
    for i in 0..q.len {
        if n <= place + i {
            return false;
        }
        let number = word_at(src, q.at + 2 * i);
        let glyph = word_at(string, 2 * (place + i));
        if !holds(src, q.sort, q.table, number, glyph) {
            return false;
        }
    }
    true
}

// Whether the numbers of a sequence hold for the glyphs before `place`, nearest first, one each.
fn fits_back(src: &[u8], q: Sequence, string: &[u8], n: usize, place: usize) -> bool
    requires { Fine src.now q × (place < n) × (n < 0x1_0000_0000_0000) }
    ensures { result ≡ runs_on src.now q (backward (words string.now 0 n) place) }
{
    for i in 0..q.len {
        if place <= i {
            return false;
        }
        let number = word_at(src, q.at + 2 * i);
        let glyph = word_at(string, 2 * (place - i - 1));
        if !holds(src, q.sort, q.table, number, glyph) {
            return false;
        }
    }
    true
}

// The numbers of a row as a sequence.
fn held_row(sort: usize, table: usize, row: Row) -> Sequence
    ensures { result ≡ sequence_of sort table row }
{
    Sequence {
        sort,
        table,
        at: row.at,
        len: row.len,
    }
}

// Whether the parts of a rule fit at a place: its input from `start` on, its lookahead after as many glyphs as it counts, its backtrack before the place.
pub fn parts_fit(
    src: &[u8],
    how: How,
    r: RuleParts,
    string: &[u8],
    n: usize,
    place: usize,
    start: usize,
) -> bool
    requires { FineParts src.now how r × (place < n) × (n < 0x1_0000_0000) × (start ≤ n) }
    ensures { result ≡ parts_fit src.now how r (words string.now 0 n) place start }
{
    if r.count == 0 {
        return false;
    }
    let input = held_row(how.sort, how.input, r.input);
    if !fits_on(src, input, string, n, start) {
        return false;
    }
    let ahead = held_row(how.sort, how.ahead, r.ahead);
    if !fits_on(src, ahead, string, n, place + r.count) {
        return false;
    }
    fits_back(src, held_row(how.sort, how.back, r.back), string, n, place)
}
