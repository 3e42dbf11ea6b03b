// Rules of contexts, plain and chained, with their sequences and lookup records: checked.
#![tactic(auto)]

ghost use Rattle.std.specs.Prelude.{◌≡◌, true, false, ◌+◌, ◌-◌, ◌*◌, ◌<◌};
ghost use Rattle.meaning.specs.Words.{entries};
ghost use Rattle.meaning.specs.Tables.{rule};
ghost use Rattle.meaning.specs.Fault.{rule_fault};
ghost use Rattle.meaning.specs.Records.{indexes_below, rule_within};
ghost use Rattle.rules.specs.Parts.{IsRule};

use wire::{inside, word_at};

// Numbers or records in a row: where the first stands, and how many there are.
#[derive(Clone, Copy)]
pub struct Row {
    pub at: usize,
    pub len: usize,
}

// Where the parts of a rule stand: its backtrack, its input after the first glyph, its lookahead and its records; and its glyph count.
#[derive(Clone, Copy)]
pub struct RuleParts {
    pub back: Row,
    pub count: usize,
    pub input: Row,
    pub ahead: Row,
    pub records: Row,
}

// Where the parts of the plain rule at `at` stand; it has neither backtrack nor lookahead.
fn plain_parts(src: &[u8], at: usize) -> RuleParts
    requires { at < 0x1_0000_0000_0000 }
    ensures { IsRule false src.now at result }
{
    let count = word_at(src, at);
    let n = count.saturating_sub(1);
    RuleParts {
        back: Row { at, len: 0 },
        count,
        input: Row { at: at + 4, len: n },
        ahead: Row { at, len: 0 },
        records: Row {
            at: at + 4 + 2 * n,
            len: word_at(src, at + 2),
        },
    }
}

// Where the parts of the chained rule at `at` stand.
fn chained_parts(src: &[u8], at: usize) -> RuleParts
    requires { at < 0x1_0000_0000_0000 }
    ensures { IsRule true src.now at result }
{
    let backs = word_at(src, at);
    let i = at + 2 + 2 * backs;
    let count = word_at(src, i);
    let n = count.saturating_sub(1);
    let a = i + 2 + 2 * n;
    let aheads = word_at(src, a);
    let r = a + 2 + 2 * aheads;
    RuleParts {
        back: Row {
            at: at + 2,
            len: backs,
        },
        count,
        input: Row { at: i + 2, len: n },
        ahead: Row {
            at: a + 2,
            len: aheads,
        },
        records: Row {
            at: r + 2,
            len: word_at(src, r),
        },
    }
}

// Where the parts of the rule at `at` stand.
pub fn rule_parts(chained: bool, src: &[u8], at: usize) -> RuleParts
    requires { at < 0x1_0000_0000_0000 }
    ensures { IsRule chained src.now at result }
{
    if chained {
        return chained_parts(src, at);
    }
    plain_parts(src, at)
}

// The fault of the rule at `at`: it is sound if it ends inside the source.
#[tactic(auto, unfolding(meaning::specs::Fault::rule_fault, meaning::specs::Fault::part_fault))]
pub fn check_rule(chained: bool, src: &[u8], at: usize) -> Option<usize>
    requires { at < 0x8000_0000_0000 }
    ensures { result ≡ rule_fault chained src.now at }
{
    let r = rule_parts(chained, src, at);
    if inside(src, r.records.at, 4 * r.records.len) {
        return None;
    }
    Some(at)
}

// Whether each of the `n` records from `at` on has a sequence index below `count`, the count of an input.
pub fn indexes_below(src: &[u8], at: usize, n: usize, count: usize) -> bool
    requires { at + 4 * n < 0x1_0000_0000_0000 }
    ensures { result ≡ indexes_below count (entries src.now at n) }
{
    for i in 0..n {
        if count <= word_at(src, at + 4 * i) {
            return false;
        }
    }
    true
}

// Whether no record of the rule at `at` points past it.
pub fn rule_within(chained: bool, src: &[u8], at: usize) -> bool
    requires { at < 0x8000_0000_0000 }
    ensures { result ≡ rule_within (rule chained src.now at) }
{
    let r = rule_parts(chained, src, at);
    indexes_below(src, r.records.at, r.records.len, r.count)
}
