// What a rule or a ligature says, by numbers: compared with what another says, and folded into a print. A rule is named by its code: twice its place, plus its side, 0 for the left subtable and 1 for the right one.
#![tactic(auto)]

ghost use Rattle.std.specs.Prelude.{◌≡◌, eqb, ◌/◌, ◌%◌, ◌<◌};
ghost use Rattle.differences.specs.Entries.{same_list, same_says};
ghost use Rattle.rule_rows.specs.Rows.{side_of, numbers_of, Reads};
ghost use Rattle.rule_says.specs.Said.{forms_at, base_of, run_of, says_by, print_says, IsPart};

use rule_rows::{Run, print_row, same_row, word_of};
use rules::{Row, RuleParts, rule_parts};
use wire::word_at;

// What the codes of two subtables stand for: plain rules (kind 1), chained ones (2) or ligatures (3); and whether their words are classes (1) or glyphs (0).
#[derive(Clone, Copy)]
pub struct Shape {
    pub kind: usize,
    pub classes: usize,
}

// Where the parts of the ligature at `at` stand: its components after the first are its input.
fn ligature_parts(src: &[u8], at: usize) -> RuleParts
    requires { at < 0x1_0000_0000 }
    ensures { IsPart 3 src.now at result }
{
    let count = word_at(src, at + 2);
    let none = Row { at, len: 0 };
    RuleParts {
        back: none,
        count,
        input: Row {
            at: at + 4,
            len: count.saturating_sub(1),
        },
        ahead: none,
        records: none,
    }
}

// Where the parts of the rule or ligature at `at` stand.
fn parts_at(kind: usize, src: &[u8], at: usize) -> RuleParts
    requires { at < 0x1_0000_0000 }
    ensures { IsPart kind src.now at result }
{
    if kind == 3 {
        return ligature_parts(src, at);
    }
    rule_parts(kind == 2, src, at)
}

// The same by its code.
fn parts_of(kind: usize, left: &[u8], right: &[u8], code: usize) -> RuleParts
    requires { code < 0x1_0000_0000 }
    ensures { IsPart kind (side_of (code % 2) left.now right.now) (code / 2) result }
{
    if code % 2 == 0 {
        return parts_at(kind, left, code / 2);
    }
    parts_at(kind, right, code / 2)
}

// The glyph that a ligature forms; 0 for a rule.
fn forms_of(kind: usize, left: &[u8], right: &[u8], code: usize) -> usize
    ensures { (result ≡ forms_at kind (side_of (code % 2) left.now right.now) (code / 2)) × (result < 65536) }
{
    if kind != 3 {
        return 0;
    }
    word_of(left, right, code % 2, code / 2)
}

// Where the numbers of the `k`-th class table stand in `t`, if words are classes.
fn base_of(classes: usize, k: usize) -> usize
    requires { k < 8 }
    ensures { (result ≡ base_of classes k) × (result < 0x1_0000_0000) }
{
    if classes == 0 {
        return 0;
    }
    65536 * k
}

// A part of a rule as a row of the numbers that the class table `k` of its side has.
fn run_of(classes: usize, code: usize, k: usize, row: Row) -> Run
    requires { k < 6 }
    ensures { result ≡ run_of classes code k row.at }
{
    Run {
        side: code % 2,
        at: row.at,
        base: base_of(classes, k + code % 2),
    }
}

// Its records as a row.
fn records_of(code: usize, row: Row) -> Run
    ensures { result ≡ run_of 0 code 0 row.at }
{
    Run {
        side: code % 2,
        at: row.at,
        base: 0,
    }
}

// The print of what a rule says: equal for rules that say the same.
pub fn print(shape: Shape, left: &[u8], right: &[u8], t: &[u32], code: usize) -> usize
    requires { code < 0x1_0000_0000 }
    ensures { (result ≡ print_says (says_by shape left.now right.now t.now code)) × (result < 65536) }
{
    let p = parts_of(shape.kind, left, right, code);
    let forms = forms_of(shape.kind, left, right, code);
    let back = run_of(shape.classes, code, 1, p.back);
    let a = print_row(left, right, t, back, p.back.len, forms);
    let input = run_of(shape.classes, code, 3, p.input);
    let b = print_row(left, right, t, input, p.input.len, a);
    let ahead = run_of(shape.classes, code, 5, p.ahead);
    let c = print_row(left, right, t, ahead, p.ahead.len, b);
    print_row(
        left,
        right,
        t,
        records_of(code, p.records),
        2 * p.records.len,
        c,
    )
}

// Whether two parts, of `m` and of `n` numbers, are the same.
fn same_part(left: &[u8], right: &[u8], t: &[u32], x: Run, m: usize, y: Run, n: usize) -> bool
    requires { Reads x × Reads y × (m < 0x1_0000_0000) × (n < 0x1_0000_0000) }
    ensures { result ≡ same_list eqb (numbers_of left.now right.now t.now x m) (numbers_of left.now right.now t.now y n) }
{
    if m != n {
        return false;
    }
    same_row(left, right, t, x, y, n)
}

// Whether two rules say the same.
pub fn same(shape: Shape, left: &[u8], right: &[u8], t: &[u32], a: usize, b: usize) -> bool
    requires { (a < 0x1_0000_0000) × (b < 0x1_0000_0000) }
    ensures { result ≡ same_says (says_by shape left.now right.now t.now a) (says_by shape left.now right.now t.now b) }
{
    let p = parts_of(shape.kind, left, right, a);
    let q = parts_of(shape.kind, left, right, b);
    if p.count != q.count {
        return false;
    }
    if forms_of(shape.kind, left, right, a) != forms_of(shape.kind, left, right, b) {
        return false;
    }
    let c = shape.classes;
    if !same_part(
        left,
        right,
        t,
        run_of(c, a, 3, p.input),
        p.input.len,
        run_of(c, b, 3, q.input),
        q.input.len,
    ) {
        return false;
    }
    if !same_part(
        left,
        right,
        t,
        run_of(c, a, 1, p.back),
        p.back.len,
        run_of(c, b, 1, q.back),
        q.back.len,
    ) {
        return false;
    }
    if !same_part(
        left,
        right,
        t,
        run_of(c, a, 5, p.ahead),
        p.ahead.len,
        run_of(c, b, 5, q.ahead),
        q.ahead.len,
    ) {
        return false;
    }
    same_part(
        left,
        right,
        t,
        records_of(a, p.records),
        2 * p.records.len,
        records_of(b, q.records),
        2 * q.records.len,
    )
}
