// What follows the sets of format 2 of contexts and chained contexts, written into the area: the coverage, from what cells hold, and the class tables, each made again from the source when it is written.
#![tactic(auto)]

ghost use Rattle.std.specs.Prelude.{◌≡◌, true, ◌≤◌, ◌<◌, length};
ghost use Rattle.meaning.specs.Maps.{glyph_entries};
ghost use Rattle.known_blocks.specs.Book.{book_cells, packs};
ghost use Rattle.class_lists.specs.Elsewhere.{Elsewhere};
ghost use Rattle.remade_classes.specs.Made.{new_table, MakeAsked};
ghost use Rattle.remade_classes.specs.Tail.{cover_of, table_blocks, TailIn, BlockAsked, PlacedTable, NotedTables, LaidTables, Lays, Places, TablesAsked};

use area::{over, put};
use area_parts::write_cover;
use class_places::slots_at;
use class_slots::settle_slots;
use class_spots::Turn;
use known_blocks::begin;
use new_class_tables::write_table;
use remade_classes::{OldTable, Tail, make_table};
use room::HIGHEST;

// Where a class table goes to, and the gap by which its offset is less than its place.
#[derive(Clone, Copy)]
struct Goal {
    turn: Turn,
    gap: usize,
}

// The new class table of an old one, made and written so.
fn write_made(
    src: &[u8],
    old: OldTable,
    glyphs: &[u8],
    t: &mut [u32],
    tail: Tail,
    area: &mut [u8],
    book: &mut [u32],
    goal: Goal,
) -> usize
    requires { MakeAsked src.now old glyphs.now tail.form t.old tail.cover.at × BlockAsked (new_table (glyph_entries tail.form glyphs.now) src.now old.at) goal.turn goal.gap area.old book.old }
    ensures { PlacedTable (new_table (glyph_entries tail.form glyphs.now) src.now old.at) goal.turn goal.gap area.old book.old area.new book.new result × Elsewhere 0 tail.cover.at t.old t.new }
{
    let table = make_table(src, old, glyphs, tail.form, t, tail.cover.at);
    write_table(t, table, area, book, goal.turn, goal.gap)
}

// The class tables of backtrack, input and lookahead, or of the input alone, from `p` on, with their slots noted from 4 on; the place after them.
fn note_tables(
    src: &[u8],
    glyphs: &[u8],
    t: &mut [u32],
    tail: Tail,
    area: &mut [u8],
    book: &mut [u32],
    gap: usize,
    p: usize,
) -> usize
    requires { TailIn src.now glyphs.now t.old tail × TablesAsked area.old gap p book.old }
    ensures { NotedTables (packs book.old) gap p (table_blocks tail.chained src.now glyphs.now tail) area.old area.new result }
{
    begin(book);
    let turn = Turn {
        at: 1,
        slot: 4,
        first: p,
        pos: p,
    };
    let first = Goal { turn, gap };
    if !tail.chained {
        return write_made(src, tail.input, glyphs, t, tail, area, book, first);
    }
    let q = write_made(src, tail.back, glyphs, t, tail, area, book, first);
    if area.len() < q {
        return q;
    }
    let turn = Turn {
        at: 2,
        slot: 6,
        first: p,
        pos: q,
    };
    let second = Goal { turn, gap };
    let r = write_made(src, tail.input, glyphs, t, tail, area, book, second);
    if area.len() < r {
        return r;
    }
    let turn = Turn {
        at: 3,
        slot: 8,
        first: p,
        pos: r,
    };
    let third = Goal { turn, gap };
    write_made(src, tail.ahead, glyphs, t, tail, area, book, third)
}

// The same with their offsets, less by the gap, in the place of the noted slots.
fn write_tables(
    src: &[u8],
    glyphs: &[u8],
    t: &mut [u32],
    tail: Tail,
    area: &mut [u8],
    book: &mut [u32],
    gap: usize,
    p: usize,
) -> usize
    requires { TailIn src.now glyphs.now t.old tail × TablesAsked area.old gap p book.old }
    ensures { LaidTables (packs book.old) gap p (table_blocks tail.chained src.now glyphs.now tail) area.old area.new result }
{
    let end = note_tables(src, glyphs, t, tail, area, book, gap, p);
    let n = (slots_at(tail.chained) - 6) / 2;
    settle_slots(area, 4, n, p - gap);
    end
}

// The coverage and the class tables: their offsets, less by the gap, from 2 on, and themselves from `p` on; the place after them.
pub fn write_tail(
    src: &[u8],
    glyphs: &[u8],
    t: &mut [u32],
    tail: Tail,
    area: &mut [u8],
    book: &mut [u32],
    gap: usize,
    p: usize,
) -> usize
    requires { TailIn src.now glyphs.now t.old tail × Places area.old 2 4 gap p × (packs book.old ≡ true → book_cells ≤ length book.old) }
    ensures { Lays (packs book.old) gap p (cover_of t.old tail) (table_blocks tail.chained src.now glyphs.now tail) area.old area.new result }
{
    if HIGHEST < p - gap {
        return over(area);
    }
    put(area, 2, p - gap);
    let q = write_cover(t, tail.cover.at, tail.cover.len, area, p);
    if area.len() < q {
        return q;
    }
    write_tables(src, glyphs, t, tail, area, book, gap, q)
}
