// The parts that a header reaches by offsets: each is checked, and one that is reached twice is checked once.
#![tactic(auto)]

ghost use Rattle.std.specs.Prelude.{◌≡◌, true, ◌+◌, ◌*◌, ◌<◌, None};
ghost use Rattle.meaning.specs.Fault.{lowest, fault_through, enough};
ghost use Rattle.gsubgpos.specs.Marks.{Marked};
ghost use Rattle.check_parts.specs.Seen.{Seen};
ghost use Rattle.check_parts.specs.Parts.{fault_of_part, member_of_part};

use bits::{has_bit, put_bit};
use faults::{found_before, lowest};
use gsubgpos::Member;
use places::{MEMBER_MARKS, PART_MARKS};
use view::subtable_place;
use wire::word_at;

// How many offsets pay for marks: fewer reach 2^26 members at most, which are soon checked.
const MANY: usize = 2048;

// The sorts of parts that an offset of a header reaches.
#[derive(Clone, Copy)]
pub enum Part {
    Coverage,
    Classes,
    Rules,
    ChainedRules,
    Ligatures,
    Pairs,
}

// The lowest fault of the part at `at`, and of what it reaches. The value formats of pairs stand in the header. `sound` has marks of its members that were found sound.
fn check_part(part: Part, src: &[u8], at: usize, sound: &mut [u32]) -> Option<usize>
    requires { (at < 65536) × Marked (member_of_part part src.now) None sound.old }
    ensures { (result ≡ fault_of_part part src.now at) × Marked (member_of_part part src.now) None sound.new }
{
    match part {
        Part::Coverage => coverage::check(src, at),
        Part::Classes => classes::check(src, at),
        Part::Rules => gsubgpos::check_set(Member::Rule, src, at, sound),
        Part::ChainedRules => gsubgpos::check_set(Member::ChainedRule, src, at, sound),
        Part::Ligatures => gsubgpos::check_set(Member::Ligature, src, at, sound),
        Part::Pairs => pair_pos::check_set(src, at, word_at(src, 4), word_at(src, 6)),
    }
}

// The lower of `low` and the fault of the part at `at`. A part whose place has a mark was counted before; another gets one, where `marks` has room for it.
// One that starts after a fault that was found is not visited.
fn check_once(
    part: Part,
    src: &[u8],
    at: usize,
    low: Option<usize>,
    marks: &mut [u32],
    sound: &mut [u32],
) -> Option<usize>
    requires { (at < 65536) × Seen (fault_of_part part src.now) low marks.old × Marked (member_of_part part src.now) None sound.old }
    ensures { (result ≡ lowest low (fault_of_part part src.now at)) × Seen (fault_of_part part src.now) result marks.new × Marked (member_of_part part src.now) None sound.new }
{
    if has_bit(marks, 0, at) {
        return low;
    }
    if found_before(low, at) {
        return low;
    }
    let found = check_part(part, src, at, sound);
    put_bit(marks, 0, at);
    lowest(low, found)
}

// The lowest fault among the parts that `n` offsets from `slot` on reach; a null offset reaches none. Where `marks` and `sound`, which have no mark yet, have a bit for each place that an offset can lead to, a part is checked once, however many offsets reach it.
fn check_each(
    part: Part,
    src: &[u8],
    slot: usize,
    n: usize,
    marks: &mut [u32],
    sound: &mut [u32],
) -> Option<usize>
    requires { (slot + 2 * n < 0x1_0000_0000_0000) × Seen (fault_of_part part src.now) None marks.old × Marked (member_of_part part src.now) None sound.old }
    ensures { result ≡ fault_through (fault_of_part part src.now) src.now 0 slot n }
{
    let mut low = None;
    for i in 0..n {
        let off = word_at(src, slot + 2 * i);
        if off != 0 {
            low = check_once(part, src, off, low, marks, sound);
        }
    }
    low
}

// The same with a mark for each place that an offset can lead to. It calls itself as `shared_within` does. It is never put into its callers: LLVM asks for the pages
// of a large frame in a loop over a register, and takes one that is in use where the caller may return before it needs the frame.
#[inline(never)]
fn check_shared(part: Part, src: &[u8], slot: usize, n: usize, rounds: usize) -> Option<usize>
    requires { slot + 2 * n < 0x1_0000_0000_0000 }
    ensures { result ≡ fault_through (fault_of_part part src.now) src.now 0 slot n }
{
    if rounds != 0 {
        return check_shared(part, src, slot, n, rounds - 1);
    }
    let mut marks = [0u32; PART_MARKS];
    let mut sound = [0u32; MEMBER_MARKS];
    check_each(part, src, slot, n, &mut marks, &mut sound)
}

// The same of any offsets. Marks are made only where there are many, since clearing them takes longer than most tables do.
pub fn check_through(part: Part, src: &[u8], slot: usize, n: usize) -> Option<usize>
    requires { slot + 2 * n < 0x1_0000_0000_0000 }
    ensures { result ≡ fault_through (fault_of_part part src.now) src.now 0 slot n }
{
    if MANY <= n {
        return check_shared(part, src, slot, n, slot % 2);
    }
    let mut no_marks = [0u32; 1];
    let mut none_sound = [0u32; 1];
    check_each(part, src, slot, n, &mut no_marks, &mut none_sound)
}

// Whether there is a set for each covered glyph, where there are `n` sets; not judged where the coverage is null or faulty.
#[tactic(auto, unfolding(meaning::specs::Fault::enough, meaning::specs::Fault::coverage_fault, meaning::specs::Fault::part_fault))]
pub fn enough_sets(src: &[u8], n: usize) -> bool
    ensures { result ≡ enough src.now n }
{
    let at = subtable_place(src, 2);
    if at == 0 {
        return true;
    }
    if coverage::check(src, at).is_some() {
        return true;
    }
    coverage_glyphs::count(src, at) <= n
}
