// The most steps that a rule of a lookup takes, from what the lookups that its records name take. A step is one lookup, asked at one place.
#![tactic(auto)]

ghost use Rattle.std.specs.Prelude.{◌≡◌, true, ◌+◌, ◌*◌, ◌/◌, ◌<◌, length};
ghost use Rattle.meaning.specs.Words.{word};
ghost use Rattle.meaning.specs.Tables.{rule_set, reaches, class_context, cover_context, context, table};
ghost use Rattle.replaying.specs.Listed.{good_list};
ghost use Rattle.replaying.specs.Cost.{larger, largest, rule_steps, sets_steps, table_steps};
ghost use Rattle.lookup_list.specs.Ready.{source_at};
ghost use Rattle.member_steps.specs.Most.{Counted};

use lookup_list::{long_at, part};
use matching::cover_parts;
use member_steps::{most_once, record_steps};
use places::MEMBER_MARKS;
use records::crowded;
use wire::word_at;

// The larger of `most` and what the rules of the set at `set` take.
fn most_in_set(
    chained: bool,
    src: &[u8],
    set: usize,
    steps: &[usize],
    most: usize,
    marks: &mut [u32],
) -> usize
    requires { (set < 65536) × Counted chained src.now steps.now most marks.old }
    ensures { (result ≡ larger most (largest (rule_steps steps.now) (rule_set chained src.now set))) × Counted chained src.now steps.now result marks.new }
{
    let n = word_at(src, set);
    let mut top = most;
    for i in 0..n {
        let off = word_at(src, set + 2 + 2 * i);
        if off != 0 {
            top = most_once(chained, src, set + off, steps, top, marks);
        }
    }
    top
}

// The most that a rule of the `n` sets takes whose offsets stand from `slot` on; a null offset reaches none.
// Where `marks`, which has no mark yet, has a bit for each rule, each is counted once, however many sets share it.
fn most_in_sets(
    chained: bool,
    src: &[u8],
    slot: usize,
    n: usize,
    steps: &[usize],
    marks: &mut [u32],
) -> usize
    requires { (slot < 65536) × (n < 65536) × Counted chained src.now steps.now 0 marks.old }
    ensures { result ≡ sets_steps steps.now (reaches (rule_set chained src.now) src.now 0 slot n) }
{
    let mut top = 0;
    for i in 0..n {
        let set = word_at(src, slot + 2 * i);
        if set != 0 {
            top = most_in_set(chained, src, set, steps, top, marks);
        }
    }
    top
}

// The same with a mark for each place where a rule can start. It calls itself, so that the compiler keeps its marks out of its caller's frame; how often it does, `rounds`, is 0, since slots stand at even places.
fn shared_steps(
    chained: bool,
    src: &[u8],
    slot: usize,
    n: usize,
    steps: &[usize],
    rounds: usize,
) -> usize
    requires { (slot < 65536) × (n < 65536) }
    ensures { result ≡ sets_steps steps.now (reaches (rule_set chained src.now) src.now 0 slot n) }
{
    if rounds != 0 {
        return shared_steps(chained, src, slot, n, steps, rounds - 1);
    }
    let mut marks = [0u32; MEMBER_MARKS];
    most_in_sets(chained, src, slot, n, steps, &mut marks)
}

// The same of any sets. Marks are made only where rules are shared.
fn sets_steps(chained: bool, src: &[u8], slot: usize, n: usize, steps: &[usize]) -> usize
    requires { (slot < 65536) × (n < 65536) }
    ensures { result ≡ sets_steps steps.now (reaches (rule_set chained src.now) src.now 0 slot n) }
{
    if crowded(src, slot, n) {
        return shared_steps(chained, src, slot, n, steps, slot % 2);
    }
    let mut no_marks = [0u32; 1];
    most_in_sets(chained, src, slot, n, steps, &mut no_marks)
}

// The most that the rule of a context of format 3 takes: it is one rule.
fn covers_steps(chained: bool, src: &[u8], steps: &[usize]) -> usize
    ensures { result ≡ table_steps steps.now (cover_context chained src.now) }
{
    let r = cover_parts(chained, src);
    record_steps(src, r.records.at, r.records.len, steps)
}

// The most that a rule of a context of format 2 takes.
fn classes_steps(chained: bool, src: &[u8], steps: &[usize]) -> usize
    ensures { result ≡ table_steps steps.now (class_context chained src.now) }
{
    if chained {
        return sets_steps(true, src, 12, word_at(src, 10), steps);
    }
    sets_steps(false, src, 8, word_at(src, 6), steps)
}

// The same of a context, plain or chained, by its format.
fn context_steps(chained: bool, src: &[u8], steps: &[usize]) -> usize
    ensures { result ≡ table_steps steps.now (context chained src.now) }
{
    let format = word_at(src, 0);
    if format == 1 {
        return sets_steps(chained, src, 6, word_at(src, 4), steps);
    }
    if format == 2 {
        return classes_steps(chained, src, steps);
    }
    covers_steps(chained, src, steps)
}

// The same of a lookup of this kind; only contexts have rules that run lookups.
fn table_steps(kind: usize, src: &[u8], steps: &[usize]) -> usize
    ensures { result ≡ table_steps steps.now (table kind src.now) }
{
    if kind == 1 {
        return context_steps(false, src, steps);
    }
    if kind == 2 {
        return context_steps(true, src, steps);
    }
    0
}

// The most that a rule of a lookup takes, by its place in a good list, from 0, where the listed lookups take `steps`.
pub fn listed_steps(list: &[u8], buffer: &[u8], lookup: usize, steps: &[usize]) -> usize
    requires { (good_list list.now buffer.now ≡ true) × (lookup < length list.now / 10) }
    ensures { result ≡ table_steps steps.now (table (word list.now (10 * lookup)) (source_at list.now buffer.now lookup)) }
{
    let src = part(
        buffer,
        long_at(list, 10 * lookup + 2),
        long_at(list, 10 * lookup + 6),
    );
    table_steps(word_at(list, 10 * lookup), src, steps)
}
