// Matching contexts, plain and chained, at a place of a string. A string is `n` glyphs in a slice, two bytes a glyph.
#![tactic(auto)]

ghost use Rattle.std.specs.Prelude.{◌≡◌, true, false, [], suc, ◌<◌, drop, None};
ghost use Rattle.meaning.specs.Words.{words};
ghost use Rattle.meaning.specs.Tables.{rule_set, class_context, cover_context, context};
ghost use Rattle.meaning.specs.Fault.{covers_fault, context_fault};
ghost use Rattle.meaning.specs.Matching.{at_place, first_fit, match};
ghost use Rattle.replay_laws.specs.Places.{backward};
ghost use Rattle.matching.specs.Fitting.{SoundTables, Told, held_by, reach_fits};
ghost use Rattle.matching.specs.Formats.{SoundCover, SoundClasses, set_fit, match_at, glyph_context, classes_at};
ghost use Rattle.matching.specs.Rows.{IsCovers};

use class_stretches::class_of;
use coverage_index::index_of;
use holding::{How, covers, parts_fit};
use rules::{Row, RuleParts, rule_parts};
use wire::word_at;

// A rule that matched: its input length, and where its records stand.
#[derive(Clone, Copy)]
pub struct Matched {
    pub input_len: usize,
    pub records: Row,
}

// Whether the rule that an offset from `base` reaches fits at a place; a null offset reaches none.
fn rule_fits(
    chained: bool,
    src: &[u8],
    how: How,
    base: usize,
    off: usize,
    string: &[u8],
    n: usize,
    place: usize,
) -> bool
    requires { SoundTables src.now how × (base < 0x1_0000_0000) × (off < 65536) × (place < n) × (n < 0x1_0000_0000) }
    ensures { result ≡ reach_fits chained src.now how base off (words string.now 0 n) place }
{
    if off == 0 {
        return false;
    }
    let r = rule_parts(chained, src, base + off);
    parts_fit(src, how, r, string, n, place, place + 1)
}

// The first rule of the set at `set` that fits at a place.
fn first_rule(
    chained: bool,
    src: &[u8],
    how: How,
    set: usize,
    string: &[u8],
    n: usize,
    place: usize,
) -> Option<Matched>
    requires { SoundTables src.now how × (set < 0x1_0000) × (place < n) × (n < 0x1_0000_0000) }
    ensures { Told src.now (first_fit (held_by src.now how) (rule_set chained src.now set) (backward (words string.now 0 n) place) (drop (suc place) (words string.now 0 n))) result }
{
    let count = word_at(src, set);
    for i in 0..count {
        let off = word_at(src, set + 2 + 2 * i);
        if rule_fits(chained, src, how, set, off, string, n, place) {
            let r = rule_parts(chained, src, set + off);
            return Some(Matched {
                input_len: r.count,
                records: r.records,
            });
        }
    }
    None
}

// The first rule that fits at a place in the set number `i` of those whose count stands at `slot`; a null set has none.
fn match_set(
    chained: bool,
    src: &[u8],
    how: How,
    slot: usize,
    i: usize,
    string: &[u8],
    n: usize,
    place: usize,
) -> Option<Matched>
    requires { SoundTables src.now how × (slot < 65536) × (place < n) × (n < 0x1_0000_0000) }
    ensures { Told src.now (set_fit chained src.now how slot i (words string.now 0 n) place) result }
{
    if word_at(src, slot) <= i {
        return None;
    }
    let set = word_at(src, slot + 2 + 2 * i);
    if set == 0 {
        return None;
    }
    first_rule(chained, src, how, set, string, n, place)
}

// Format 1: the set of the glyph's coverage index.
fn match_glyphs(chained: bool, src: &[u8], string: &[u8], n: usize, place: usize) -> Option<Matched>
    requires { SoundCover src.now × (place < n) × (n < 0x1_0000_0000) }
    ensures { Told src.now (match_at (glyph_context chained src.now) (words string.now 0 n) place) result }
{
    let cover = word_at(src, 2);
    if cover == 0 {
        return None;
    }
    let Some(i) = index_of(src, cover, word_at(string, 2 * place)) else {
        return None;
    };
    let how = How {
        sort: 0,
        back: 0,
        input: 0,
        ahead: 0,
    };
    match_set(chained, src, how, 4, i, string, n, place)
}

// Format 2: the set of the glyph's class, if the glyph is covered; the numbers are classes of these three tables.
fn match_classes(
    chained: bool,
    src: &[u8],
    how: How,
    slot: usize,
    string: &[u8],
    n: usize,
    place: usize,
) -> Option<Matched>
    requires { SoundCover src.now × SoundTables src.now how × (how.sort ≡ 1) × (slot < 65536) × (place < n) × (n < 0x1_0000_0000) }
    ensures { Told src.now (match_at (classes_at chained src.now how slot) (words string.now 0 n) place) result }
{
    if how.input == 0 {
        return None;
    }
    let glyph = word_at(string, 2 * place);
    if !covers(src, word_at(src, 2), glyph) {
        return None;
    }
    let class = class_of(src, how.input, glyph);
    match_set(chained, src, how, slot, class, string, n, place)
}

// Format 3: where the coverages and the records of a plain context stand.
fn plain_covers(src: &[u8]) -> RuleParts
    ensures { IsCovers false src.now result }
{
    let count = word_at(src, 2);
    RuleParts {
        back: Row { at: 0, len: 0 },
        count,
        input: Row { at: 6, len: count },
        ahead: Row { at: 0, len: 0 },
        records: Row {
            at: 6 + 2 * count,
            len: word_at(src, 4),
        },
    }
}

// The same of a chained context.
fn chained_covers(src: &[u8]) -> RuleParts
    ensures { IsCovers true src.now result }
{
    let backs = word_at(src, 2);
    let i = 4 + 2 * backs;
    let count = word_at(src, i);
    let a = i + 2 + 2 * count;
    let aheads = word_at(src, a);
    let r = a + 2 + 2 * aheads;
    RuleParts {
        back: Row { at: 4, len: backs },
        count,
        input: Row {
            at: i + 2,
            len: count,
        },
        ahead: Row {
            at: a + 2,
            len: aheads,
        },
        records: Row {
            at: r + 2,
            len: word_at(src, r),
        },
    }
}

// The same of either.
pub fn cover_parts(chained: bool, src: &[u8]) -> RuleParts
    ensures { IsCovers chained src.now result }
{
    if chained {
        return chained_covers(src);
    }
    plain_covers(src)
}

// Format 3: one sequence of coverages, which the glyph at the place begins.
fn match_covers(chained: bool, src: &[u8], string: &[u8], n: usize, place: usize) -> Option<Matched>
    requires { (covers_fault chained src.now ≡ None) × (place < n) × (n < 0x1_0000_0000) }
    ensures { Told src.now (match_at (cover_context chained src.now) (words string.now 0 n) place) result }
{
    let r = cover_parts(chained, src);
    let how = How {
        sort: 2,
        back: 0,
        input: 0,
        ahead: 0,
    };
    if parts_fit(src, how, r, string, n, place, place) {
        return Some(Matched {
            input_len: r.count,
            records: r.records,
        });
    }
    None
}

// Format 2, with the class tables of a plain or a chained context.
fn match_by_class(
    chained: bool,
    src: &[u8],
    string: &[u8],
    n: usize,
    place: usize,
) -> Option<Matched>
    requires { SoundCover src.now × SoundClasses chained src.now × (place < n) × (n < 0x1_0000_0000) }
    ensures { Told src.now (match_at (class_context chained src.now) (words string.now 0 n) place) result }
{
    if chained {
        let all = How {
            sort: 1,
            back: word_at(src, 4),
            input: word_at(src, 6),
            ahead: word_at(src, 8),
        };
        return match_classes(true, src, all, 10, string, n, place);
    }
    let one = How {
        sort: 1,
        back: 0,
        input: word_at(src, 4),
        ahead: 0,
    };
    match_classes(false, src, one, 6, string, n, place)
}

// What a context, plain or chained, matches at a place of a string; nothing past its end.
pub fn match_context(
    chained: bool,
    src: &[u8],
    string: &[u8],
    n: usize,
    place: usize,
) -> Option<Matched>
    requires { (context_fault chained src.now ≡ None) × (n < 0x1_0000_0000) }
    ensures { Told src.now (at_place (match (context chained src.now)) [] (words string.now 0 n) place) result }
{
    if n <= place {
        return None;
    }
    let format = word_at(src, 0);
    if format == 1 {
        return match_glyphs(chained, src, string, n, place);
    }
    if format == 2 {
        return match_by_class(chained, src, string, n, place);
    }
    match_covers(chained, src, string, n, place)
}
