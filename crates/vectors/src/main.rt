// Runs stored calls from standard input, and calls at the limits and on large tables that are made here, and prints how many answered as they should.
// Each is made three times: what is kept on a buffer that is one byte short, on one that is exact and on one that is longer, what has no room on three that are too short,
// and any other refusal on an empty, a small and a large buffer.
// Number, length and the whole buffer are compared.
#![tactic(auto)]

ghost use Rattle.std.specs.Prelude.{◌≤◌, ◌<◌, length};

use answer_numbers::{length_of, number_of};
use made_tables::{
    put_list, put_map, put_next, put_pair_sets, put_pair_table, put_pairs, put_result, put_rules,
    put_same, put_same_but_last, put_shared, put_source,
};
use marks::Marks;
use put_words::{put, put_entry, put_record};
use std::io::Read;
use subset::subset;
use wire::{byte, word_at};

// The most bytes of stored calls.
const FILE: usize = 262144;

// The bytes before the parts of a stored call: the kind, the form of the glyph map, the layout, the number of the answer, the lengths of source, glyph map and lookup map, and the length that comes with the answer.
const HEADER: usize = 16;

// The most bytes that a source may have.
const LONGEST: usize = 262144;

// One byte more.
const LONG: usize = 262145;

// The bytes of the plain layout that has its last coverage at 65,534.
const HIGHEST_KEPT: usize = 65666;

// The bytes of a map of 32,764 glyphs.
const MOST_GLYPHS: usize = 131060;

// The bytes of the plain layout with as many substitutes.
const MOST_KEPT: usize = 65544;

// The bytes of a map of one glyph more.
const MORE_GLYPHS: usize = 131064;

// The form of the glyph maps that are made here.
const PAIRS: usize = 4;

// The layout in which no part is shared.
const PLAIN: usize = 0;

// The layout in which equal blocks are written once.
const PACKED: usize = 1;

// How often each call is made.
const TIMES: usize = 3;

// How much longer the longer buffer is.
const LONGER: usize = 16;

// The longest buffer that is lent.
const SPACE: usize = 65682;

// Prints a text. A failed write is not told.
fn text(rt: &impl Print, s: &[u8]) {
    let _ = rt.write_all(s);
}

// Prints a number, as `text` prints.
fn number(rt: &impl Print, n: usize) {
    let _ = print!(rt; "{n}");
}

// What a buffer holds at `i` before a call.
fn old_byte(i: usize) -> usize
    ensures { result < 256 }
{
    i % 251
}

// Puts into a buffer what it holds before a call.
fn fill(out: &mut [u8]) {
    for (i, b) in out.iter_mut().enumerate() {
        *b = old_byte(i) as u8;
    }
}

// What a buffer holds at `i` after a call: a kept byte, or what it held before.
fn new_byte(kept: &[u8], i: usize) -> usize {
    if i < kept.len() {
        return byte(kept, i);
    }
    old_byte(i)
}

// Whether the buffer holds the kept bytes at its front, and after them what it held before the call.
fn holds(out: &[u8], kept: &[u8]) -> bool {
    kept.len() <= out.len()
        && out
            .iter()
            .enumerate()
            .all(|(i, b)| *b as usize == new_byte(kept, i))
}

// Whether the call on this buffer gives this number and length, and leaves the kept bytes in the buffer.
fn agrees(
    marks: Marks,
    source: &[u8],
    glyphs: &[u8],
    lookups: &[u8],
    answer: usize,
    len: usize,
    kept: &[u8],
    out: &mut [u8],
) -> bool {
    fill(out);
    let a = subset(marks, source, glyphs, lookups, out);
    if number_of(a) != answer {
        return false;
    }
    if length_of(a) != len {
        return false;
    }
    holds(out, kept)
}

// The same on a buffer of `room` bytes, as a count of calls that agree, which is printed if it is 0.
fn agreed(
    rt: &impl Print,
    marks: Marks,
    source: &[u8],
    glyphs: &[u8],
    lookups: &[u8],
    answer: usize,
    len: usize,
    kept: &[u8],
    room: usize,
) -> usize
    requires { room ≤ 65682 }
    ensures { result ≤ 1 }
{
    let mut space = [0u8; SPACE];
    if agrees(
        marks,
        source,
        glyphs,
        lookups,
        answer,
        len,
        kept,
        &mut space[..room],
    ) {
        return 1;
    }
    text(rt, b"with a buffer of ");
    number(rt, room);
    text(rt, b" bytes: ");
    0
}

// How many agree of the calls that keep these bytes.
fn kept_calls(
    rt: &impl Print,
    marks: Marks,
    source: &[u8],
    glyphs: &[u8],
    lookups: &[u8],
    kept: &[u8],
) -> usize
    ensures { result ≤ 3 }
{
    let n = kept.len();
    if n == 0 {
        return 0;
    }
    if SPACE - LONGER < n {
        return 0;
    }
    let short = agreed(rt, marks, source, glyphs, lookups, 10, n, b"", n - 1);
    let exact = agreed(rt, marks, source, glyphs, lookups, 0, n, kept, n);
    let longer = agreed(rt, marks, source, glyphs, lookups, 0, n, kept, n + LONGER);
    short + exact + longer
}

// How many agree of the calls that have no room, since `n` bytes are needed.
fn short_calls(
    rt: &impl Print,
    marks: Marks,
    source: &[u8],
    glyphs: &[u8],
    lookups: &[u8],
    n: usize,
) -> usize
    ensures { result ≤ 3 }
{
    if n == 0 {
        return 0;
    }
    if SPACE < n {
        return 0;
    }
    let empty = agreed(rt, marks, source, glyphs, lookups, 10, n, b"", 0);
    let half = agreed(rt, marks, source, glyphs, lookups, 10, n, b"", n / 2);
    let short = agreed(rt, marks, source, glyphs, lookups, 10, n, b"", n - 1);
    empty + half + short
}

// How many agree of the calls that are refused by this number, with this length.
fn refused_calls(
    rt: &impl Print,
    marks: Marks,
    source: &[u8],
    glyphs: &[u8],
    lookups: &[u8],
    answer: usize,
    len: usize,
) -> usize
    ensures { result ≤ 3 }
{
    let empty = agreed(rt, marks, source, glyphs, lookups, answer, len, b"", 0);
    let small = agreed(rt, marks, source, glyphs, lookups, answer, len, b"", LONGER);
    let large = agreed(rt, marks, source, glyphs, lookups, answer, len, b"", SPACE);
    empty + small + large
}

// How many agree of the calls with this answer.
fn calls(
    rt: &impl Print,
    marks: Marks,
    source: &[u8],
    glyphs: &[u8],
    lookups: &[u8],
    answer: usize,
    len: usize,
    kept: &[u8],
) -> usize
    ensures { result ≤ 3 }
{
    if answer == 0 {
        return kept_calls(rt, marks, source, glyphs, lookups, kept);
    }
    if answer == 10 {
        return short_calls(rt, marks, source, glyphs, lookups, len);
    }
    refused_calls(rt, marks, source, glyphs, lookups, answer, len)
}

// Prints a label and a number where not every call agreed; how many did.
fn verdict(rt: &impl Print, label: &[u8], n: usize, good: usize) -> usize
    requires { good ≤ 3 }
    ensures { result ≤ 3 }
{
    if good < TIMES {
        text(rt, label);
        number(rt, n);
        text(rt, b" differs\n");
    }
    good
}

// How many kept bytes a stored call has: none where it is refused.
fn kept_len(file: &[u8], at: usize) -> usize
    requires { at ≤ 262144 }
    ensures { result < 65536 }
{
    if word_at(file, at + 6) != 0 {
        return 0;
    }
    word_at(file, at + 14)
}

// The marks of a call.
fn marked(kind: usize, form: usize, layout: usize) -> Marks {
    Marks { kind, form, layout }
}

// The marks of a call for the plain layout.
fn plain(kind: usize, form: usize) -> Marks {
    marked(kind, form, PLAIN)
}

// How many agree of the calls of a stored call, which is the one of this index.
fn stored(rt: &impl Print, index: usize, call: &[u8]) -> usize
    ensures { result ≤ 3 }
{
    let glyphs = HEADER + word_at(call, 8);
    let lookups = glyphs + word_at(call, 10);
    let kept = lookups + word_at(call, 12);
    let end = kept + kept_len(call, 0);
    if call.len() < end {
        return 0;
    }
    let good = calls(
        rt,
        marked(word_at(call, 0), word_at(call, 2), word_at(call, 4)),
        &call[HEADER..glyphs],
        &call[glyphs..lookups],
        &call[lookups..kept],
        word_at(call, 6),
        word_at(call, 14),
        &call[kept..end],
    );
    verdict(rt, b"stored call ", index, good)
}

// The bytes of the stored call at `at`.
fn call_size(file: &[u8], at: usize) -> usize
    requires { at ≤ 262144 }
    ensures { (16 ≤ result) × (result ≤ 300000) }
{
    let parts = word_at(file, at + 8) + word_at(file, at + 10) + word_at(file, at + 12);
    HEADER + parts + kept_len(file, at)
}

// Prints how many of the calls agreed.
fn summary(rt: &impl Print, made: usize, good: usize)
    requires { good ≤ made }
{
    number(rt, good);
    text(rt, b" calls agreed, ");
    number(rt, made - good);
    text(rt, b" differed\n");
}

// Prints that the file does not end where a stored call does.
fn cut_short(rt: &impl Print) {
    text(rt, b"the last stored call is cut short\n");
}

// Runs the stored calls, and prints how many of these and of those that were made before agreed.
fn run(rt: &impl Print, file: &[u8], made: usize, good: usize)
    requires { (length file.now ≤ 262144) × (made ≤ 65536) × (good ≤ made) }
{
    let mut at = 0;
    let mut index = 0;
    let mut agreeing = 0;
    // A while: a call's size says where the next one stands.
    while at < file.len() {
        let end = at + call_size(file, at);
        if file.len() < end {
            return cut_short(rt);
        }
        agreeing += stored(rt, index, &file[at..end]);
        index += 1;
        at = end;
    }
    summary(rt, made + TIMES * index, good + agreeing)
}

// A source, a map or a buffer of zeros. Its type says how long it is, and no contract says what is in it.
fn zeros<const N: usize>() -> [u8; N] {
    [0u8; N]
}

// Sources of zeros, of the most bytes that a source may have: the kind has no format 0.
fn longest_source(rt: &impl Print, kind: usize) -> usize
    ensures { result ≤ 3 }
{
    let source = zeros::<LONGEST>();
    let good = refused_calls(rt, plain(kind, PAIRS), &source, b"", b"", 5, 0);
    verdict(rt, b"the longest source of kind ", kind, good)
}

// Sources of zeros, of one byte more.
fn long_source(rt: &impl Print, kind: usize) -> usize
    ensures { result ≤ 3 }
{
    let source = zeros::<LONG>();
    let good = refused_calls(rt, plain(kind, PAIRS), &source, b"", b"", 4, 0);
    verdict(rt, b"a longer source of kind ", kind, good)
}

// How many agree of the calls on both, of this kind.
fn sources(rt: &impl Print, kind: usize) -> usize
    ensures { result ≤ 6 }
{
    longest_source(rt, kind) + long_source(rt, kind)
}

// How many agree of the calls whose plain layout has its last coverage at 65,534: 490 places of 64 glyphs, in 65,666 bytes.
fn highest_offset(rt: &impl Print) -> usize
    ensures { result ≤ 3 }
{
    let mut source = [0u8; 1118];
    put_source(&mut source, 490, 64);
    let mut glyphs = [0u8; 256];
    put_map(&mut glyphs, 64);
    let mut kept = zeros::<HIGHEST_KEPT>();
    put_result(&mut kept, 490, 64);
    let good = kept_calls(rt, plain(1, PAIRS), &source, &glyphs, b"", &kept);
    verdict(rt, b"a coverage at ", 65534, good)
}

// How many agree of the calls whose plain layout would have it at 65,536: 8,192 places of one glyph.
fn higher_offset(rt: &impl Print) -> usize
    ensures { result ≤ 3 }
{
    let mut source = [0u8; 16396];
    put_source(&mut source, 8192, 1);
    let mut glyphs = [0u8; 4];
    put_map(&mut glyphs, 1);
    let good = refused_calls(rt, plain(1, PAIRS), &source, &glyphs, b"", 9, 0);
    verdict(rt, b"a coverage at ", 65536, good)
}

// How many agree of the calls whose packed layout has one coverage for these 8,192 places.
fn packed_coverage(rt: &impl Print) -> usize
    ensures { result ≤ 3 }
{
    let mut source = [0u8; 16396];
    put_source(&mut source, 8192, 1);
    let mut glyphs = [0u8; 4];
    put_map(&mut glyphs, 1);
    let mut kept = [0u8; 16396];
    put_shared(&mut kept, 8192, 1, 2);
    let good = kept_calls(rt, marked(1, PAIRS, PACKED), &source, &glyphs, b"", &kept);
    verdict(rt, b"places with one coverage: ", 8192, good)
}

// How many agree of the calls on 9,000 covered glyphs.
fn many_covered(rt: &impl Print) -> usize
    ensures { result ≤ 3 }
{
    let mut source = [0u8; 18012];
    put_source(&mut source, 1, 9000);
    let mut glyphs = [0u8; 36000];
    put_map(&mut glyphs, 9000);
    let mut kept = [0u8; 18012];
    put_result(&mut kept, 1, 9000);
    let good = kept_calls(rt, plain(1, PAIRS), &source, &glyphs, b"", &kept);
    verdict(rt, b"covered glyphs: ", 9000, good)
}

// How many agree of the calls on a set of 1,000 rules, of which all are kept: the source is as its plain layout has it.
fn many_rules(rt: &impl Print) -> usize
    ensures { result ≤ 3 }
{
    let mut source = [0u8; 8016];
    put_record(&mut source, 0, 1, 8010, 1);
    put_entry(&mut source, 6, 8, 1000);
    put_rules(&mut source, 10, 1000);
    put_record(&mut source, 8010, 1, 1, 0);
    let mut glyphs = [0u8; 4000];
    put_same(&mut glyphs, 1000);
    let good = kept_calls(rt, plain(1, PAIRS), &source, &glyphs, b"", &source);
    verdict(rt, b"rules in a set: ", 1000, good)
}

// How many agree of the calls on 300 glyphs that share a set of 300 pairs, of which the first 100 are retained.
fn wide_pairs(rt: &impl Print) -> usize
    ensures { result ≤ 3 }
{
    let mut source = [0u8; 1822];
    put_pair_table(&mut source, 300, 0, 1812);
    put(&mut source, 1818, 299);
    put_pairs(&mut source, 610, 300);
    let mut glyphs = [0u8; 400];
    put_same(&mut glyphs, 100);
    let mut kept = [0u8; 40420];
    put_pair_table(&mut kept, 100, 402, 40410);
    put(&mut kept, 40416, 99);
    put_pair_sets(&mut kept, 210, 100);
    let good = kept_calls(rt, plain(4, PAIRS), &source, &glyphs, b"", &kept);
    verdict(rt, b"pairs of a shared set: ", 300, good)
}

// How many agree of the calls whose plain layout has the coverage at 65,534, behind 32,764 substitutes.
fn most_substitutes(rt: &impl Print) -> usize
    ensures { result ≤ 3 }
{
    let mut source = [0u8; 16];
    put_next(&mut source, 32764);
    let mut glyphs = zeros::<MOST_GLYPHS>();
    put_same_but_last(&mut glyphs, 32764);
    let mut kept = zeros::<MOST_KEPT>();
    put_list(&mut kept, 32764);
    let good = kept_calls(rt, plain(5, PAIRS), &source, &glyphs, b"", &kept);
    verdict(rt, b"substitutes: ", 32764, good)
}

// How many agree of the calls whose plain layout would have it at 65,536.
fn more_substitutes(rt: &impl Print) -> usize
    ensures { result ≤ 3 }
{
    let mut source = [0u8; 16];
    put_next(&mut source, 32765);
    let mut glyphs = zeros::<MORE_GLYPHS>();
    put_same_but_last(&mut glyphs, 32765);
    let good = refused_calls(rt, plain(5, PAIRS), &source, &glyphs, b"", 9, 0);
    verdict(rt, b"substitutes: ", 32765, good)
}

// How many agree of the calls on a chained context with high classes: each new class is the rank of the old one among those that survive.
// Before the place glyph 2 holds class 60,000; after it glyphs 2 to 6 hold 65,535, 4,100, 100, 40,000 and 200, of which 6 is not retained. The rule names 60,000 before and the first four after.
fn high_classes(rt: &impl Print) -> usize
    ensures { result ≤ 3 }
{
    let source =
        b"\x00\x02\x00\x26\x00\x2c\x00\x36\x00\x40\x00\x02\x00\x00\x00\x10\x00\x01\x00\x04\x00\x01\xea\x60\x00\x01\x00\x04\xff\xff\x10\x04\x00\x64\x9c\x40\x00\x00\x00\x01\x00\x01\x00\x01\x00\x02\x00\x01\x00\x02\x00\x02\xea\x60\x00\x02\x00\x01\x00\x01\x00\x01\x00\x01\x00\x01\x00\x02\x00\x05\xff\xff\x10\x04\x00\x64\x9c\x40\x00\xc8";
    let glyphs =
        b"\x00\x01\x00\x01\x00\x02\x00\x02\x00\x03\x00\x03\x00\x04\x00\x04\x00\x05\x00\x05";
    let kept =
        b"\x00\x02\x00\x26\x00\x2c\x00\x34\x00\x3c\x00\x02\x00\x00\x00\x10\x00\x01\x00\x04\x00\x01\x00\x01\x00\x01\x00\x04\x00\x04\x00\x02\x00\x01\x00\x03\x00\x00\x00\x01\x00\x01\x00\x01\x00\x01\x00\x02\x00\x01\x00\x01\x00\x01\x00\x01\x00\x01\x00\x01\x00\x01\x00\x02\x00\x04\x00\x04\x00\x02\x00\x01\x00\x03";
    let good = kept_calls(rt, plain(2, PAIRS), source, glyphs, b"", kept);
    verdict(rt, b"classes up to ", 65535, good)
}

// How many agree of the calls on large tables.
fn large_tables(rt: &impl Print) -> usize
    ensures { result ≤ 12 }
{
    many_covered(rt) + many_rules(rt) + wide_pairs(rt) + high_classes(rt)
}

// How many agree of the calls at the limits.
fn limits(rt: &impl Print) -> usize
    ensures { result ≤ 45 }
{
    let contexts = sources(rt, 1) + sources(rt, 2);
    let others = sources(rt, 3) + sources(rt, 4) + sources(rt, 5);
    let offsets = highest_offset(rt) + higher_offset(rt) + packed_coverage(rt);
    contexts + others + offsets + most_substitutes(rt) + more_substitutes(rt)
}

// Reads until `file` is full, the input ends or a read fails; how many bytes stand at its front.
fn read_calls(from: &mut impl Read, file: &mut [u8]) -> usize
    ensures { result ≤ length file.new }
{
    let mut n = 0;
    // A while: each read says how far it came.
    while n < file.len() {
        match from.read(&mut file[n..]) {
            Ok(more) if more > 0 => n += more,
            _ => break,
        }
    }
    n
}

fn main(rt: HostRuntime) {
    let good = limits(&rt) + large_tables(&rt);
    let mut file = zeros::<FILE>();
    let n = read_calls(&mut rt.stdin(), &mut file);
    run(&rt, &file[..n], 19 * TIMES, good);
}
