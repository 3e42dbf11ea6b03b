// Where the parts of a context by coverages stand, and how many glyphs can be noted of one of its coverages.
#![tactic(auto)]

ghost use Rattle.std.specs.Prelude.{◌≡◌, true, false, ◌-◌, None};
ghost use Rattle.meaning.specs.Parts.{coverage_sound};
ghost use Rattle.meaning.specs.Fault.{covers_fault};
ghost use Rattle.cover_parts.specs.Parts.{IsContext};
ghost use Rattle.cover_parts.specs.Rows.{SoundRow, MoreNotes, MostRow};
ghost use Rattle.glyph_runs.specs.Runs.{GlyphMap};

use cell_maps::Map;
use meets::most;
use wire::{word_at, word_inside};

// Offsets or records in a row: where the first stands, and how many there are.
#[derive(Clone, Copy)]
pub struct Row {
    pub at: usize,
    pub len: usize,
}

// An offset: where it stands, and where the coverage stands that it reaches.
#[derive(Clone, Copy)]
pub struct Slot {
    pub at: usize,
    pub cover: usize,
}

// Where the first coverage stands, and where the next one is written.
#[derive(Clone, Copy)]
pub struct Places {
    pub first: usize,
    pub pos: usize,
}

// The glyph map in cells, and its form.
#[derive(Clone, Copy)]
pub struct Held {
    pub form: usize,
    pub map: Map,
}

// Where the parts of a context stand: the offsets of its coverages, and its records.
#[derive(Clone, Copy)]
pub struct CoverParts {
    pub back: Row,
    pub input: Row,
    pub ahead: Row,
    pub records: Row,
}

// Where the parts of a plain context stand; it has neither backtrack nor lookahead.
fn plain_parts(src: &[u8]) -> CoverParts
    requires { covers_fault false src.now ≡ None }
    ensures { IsContext false src.now result }
{
    let n = word_at(src, 2);
    CoverParts {
        back: Row { at: 0, len: 0 },
        input: Row { at: 6, len: n },
        ahead: Row { at: 0, len: 0 },
        records: Row {
            at: 6 + 2 * n,
            len: word_at(src, 4),
        },
    }
}

// Where the parts of a chained context stand.
fn chained_parts(src: &[u8]) -> CoverParts
    requires { covers_fault true src.now ≡ None }
    ensures { IsContext true src.now result }
{
    let backs = word_at(src, 2);
    let i = 4 + 2 * backs;
    let inputs = word_at(src, i);
    let a = i + 2 + 2 * inputs;
    let aheads = word_at(src, a);
    let r = a + 2 + 2 * aheads;
    CoverParts {
        back: Row { at: 4, len: backs },
        input: Row {
            at: i + 2,
            len: inputs,
        },
        ahead: Row {
            at: a + 2,
            len: aheads,
        },
        records: Row {
            at: r + 2,
            len: word_at(src, r),
        },
    }
}

// Where the parts of the context stand.
pub fn cover_parts(chained: bool, src: &[u8]) -> CoverParts
    requires { covers_fault chained src.now ≡ None }
    ensures { IsContext chained src.now result }
{
    if chained {
        return chained_parts(src);
    }
    plain_parts(src)
}

// `least`, or how many glyphs can be noted of the coverage at `cover` if they are more; of a null one there are none.
fn more_notes(src: &[u8], cover: usize, glyphs: &[u8], form: usize, least: usize) -> usize
    requires { ((cover ≡ 0 → ⊥) → coverage_sound src.now cover ≡ true) × GlyphMap form glyphs.now }
    ensures { MoreNotes form glyphs.now src.now cover least result }
{
    if cover == 0 {
        return least;
    }
    let n = most(src, cover, glyphs, form);
    if n < least {
        return least;
    }
    n
}

// `least`, or how many glyphs can be noted of a coverage that the row reaches if they are more.
pub fn most_row(src: &[u8], row: Row, glyphs: &[u8], form: usize, least: usize) -> usize
    requires { SoundRow src.now row × GlyphMap form glyphs.now }
    ensures { MostRow form glyphs.now src.now row least result }
{
    let mut r = least;
    for i in 0..row.len {
        r = more_notes(src, word_inside(src, row.at + 2 * i), glyphs, form, r);
    }
    r
}
