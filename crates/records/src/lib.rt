// Records that point past their rule, over the whole source: those of every rule, retained or not.
#![tactic(auto)]

ghost use Rattle.std.specs.Prelude.{◌≡◌, true, false, ◌+◌, ◌*◌, ◌≤◌, ◌<◌};
ghost use Rattle.meaning.specs.Words.{words};
ghost use Rattle.meaning.specs.Tables.{rule_set, reaches, class_context, cover_context, context, table};
ghost use Rattle.meaning.specs.Records.{sets_within, records_within};
ghost use Rattle.records.specs.Crowded.{members_at, crowds};

use places::MEMBER_MARKS;
use rules::indexes_below;
use view::header;
use wire::word_at;

// How many members the `n` sets have together whose offsets stand from `slot` on: a set's place has their number.
fn members(src: &[u8], slot: usize, n: usize) -> usize
    requires { (slot < 65536) × (n < 65536) }
    ensures { (result ≡ members_at src.now (words src.now slot n)) × (result ≤ 0x1_0000_0000) }
{
    let mut total = 0;
    for i in 0..n {
        let at = word_at(src, slot + 2 * i);
        total += word_at(src, at);
    }
    total
}

// Whether these sets have more than one member for each eight bytes of a source of 1,024 to 262,144 bytes, so that they share members or have such as say next to nothing. Then it pays to mark each rule that was asked.
pub fn crowded(src: &[u8], slot: usize, n: usize) -> bool
    requires { (slot < 65536) × (n < 65536) }
    ensures { result ≡ crowds src.now slot n }
{
    if src.len() < 1024 {
        return false;
    }
    if 262144 < src.len() {
        return false;
    }
    src.len() < 8 * members(src, slot, n)
}

// Whether no record of the rules of `n` sets, whose offsets stand from `slot` on, points past its rule, where the sets share rules: each rule is asked once.
// It calls itself, so that the compiler keeps its marks out of its caller's frame: small tables would pay for probing their pages. How often it does, `rounds`, is 0, since slots stand at even places.
fn shared_within(chained: bool, src: &[u8], slot: usize, n: usize, rounds: usize) -> bool
    requires { (slot < 65536) × (n < 65536) }
    ensures { result ≡ sets_within (reaches (rule_set chained src.now) src.now 0 slot n) }
{
    if rounds != 0 {
        return shared_within(chained, src, slot, n, rounds - 1);
    }
    let mut marks = [0u32; MEMBER_MARKS];
    gsubgpos::sets_within(chained, src, slot, n, &mut marks)
}

// The same of any sets. Marks are made only where rules are shared, since clearing them takes longer than most tables do.
fn sets_within(chained: bool, src: &[u8], slot: usize, n: usize) -> bool
    requires { (slot < 65536) × (n < 65536) }
    ensures { result ≡ sets_within (reaches (rule_set chained src.now) src.now 0 slot n) }
{
    if crowded(src, slot, n) {
        return shared_within(chained, src, slot, n, slot % 2);
    }
    let mut no_marks = [0u32; 1];
    gsubgpos::sets_within(chained, src, slot, n, &mut no_marks)
}

// Whether no record of a plain context of format 3 points past its input.
fn plain_covers_within(src: &[u8]) -> bool
    ensures { result ≡ records_within (cover_context false src.now) }
{
    let n = word_at(src, 2);
    indexes_below(src, 6 + 2 * n, word_at(src, 4), n)
}

// Whether no record of a chained context of format 3 points past its input.
fn chained_covers_within(src: &[u8]) -> bool
    ensures { result ≡ records_within (cover_context true src.now) }
{
    let input = 4 + 2 * word_at(src, 2);
    let n = word_at(src, input);
    let ahead = input + 2 + 2 * n;
    let records = ahead + 2 + 2 * word_at(src, ahead);
    indexes_below(src, records + 2, word_at(src, records), n)
}

// The same of format 3, plain or chained.
fn covers_within(chained: bool, src: &[u8]) -> bool
    ensures { result ≡ records_within (cover_context chained src.now) }
{
    if chained {
        return chained_covers_within(src);
    }
    plain_covers_within(src)
}

// The same of format 2.
fn by_class_within(chained: bool, src: &[u8]) -> bool
    ensures { result ≡ records_within (class_context chained src.now) }
{
    if chained {
        return sets_within(true, src, 12, header(src, 10));
    }
    sets_within(false, src, 8, header(src, 6))
}

// The same of a context, plain or chained, by its format.
fn context_within(chained: bool, src: &[u8]) -> bool
    ensures { result ≡ records_within (context chained src.now) }
{
    let format = header(src, 0);
    match format {
        1 => sets_within(chained, src, 6, header(src, 4)),
        2 => by_class_within(chained, src),
        _ => covers_within(chained, src),
    }
}

// Whether no record of a source of this kind points past its rule, retained or not: its sequence index is below the count of the rule's input. Only contexts have records.
pub fn records_within(kind: usize, src: &[u8]) -> bool
    ensures { result ≡ records_within (table kind src.now) }
{
    match kind {
        1 => context_within(false, src),
        2 => context_within(true, src),
        _ => true,
    }
}
