// Sets of rules of contexts, plain and chained, and of ligatures: checked. The work: the check looks once at the counts of each member.
#![tactic(auto)]

ghost use Rattle.std.specs.Prelude.{◌≡◌, true, ◌+◌, ◌*◌, ◌≤◌, ◌<◌, length, None};
ghost use Rattle.meaning.specs.Tables.{rule, rule_set, reaches};
ghost use Rattle.meaning.specs.Fault.{fault_through, set_fault};
ghost use Rattle.meaning.specs.Records.{rule_within, sets_within};
ghost use Rattle.laws.specs.EachLeft.{passes};
ghost use Rattle.gsubgpos.specs.Marks.{Marked};
ghost use Rattle.gsubgpos.specs.Members.{member_fault, good_rule};

use bits::{has_bit, put_bit};
use faults::{found_before, lowest};
use ligature_subst::check_ligature;
use rules::{check_rule, rule_within};
use view::set_count;
use wire::{inside, word_at, word_inside};

// The sorts of members that a set has.
#[derive(Clone, Copy)]
pub enum Member {
    Rule,
    ChainedRule,
    Ligature,
}

// The fault of the member at `at`, by its sort.
fn check_member(member: Member, src: &[u8], at: usize) -> Option<usize>
    requires { at < 0x100_0000_0000 }
    ensures { result ≡ member_fault member src.now at }
{
    match member {
        Member::Rule => check_rule(false, src, at),
        Member::ChainedRule => check_rule(true, src, at),
        Member::Ligature => check_ligature(src, at),
    }
}

// The lowest fault among the members that the `n` offsets of the set at `at` reach, which lie inside. A member whose place has a mark was found sound before: nothing of it is read, since sets that overlap reach a member again and again. One that is sound gets a mark, where `marks` has room for it.
fn check_members(
    member: Member,
    src: &[u8],
    at: usize,
    n: usize,
    marks: &mut [u32],
) -> Option<usize>
    requires { (at < 0x80_0000_0000) × (n < 65536) × (at + 2 + 2 * n ≤ length src.now) × Marked (member_fault member src.now) None marks.old }
    ensures { (result ≡ fault_through (member_fault member src.now) src.now at (at + 2) n) × Marked (member_fault member src.now) None marks.new }
{
    let mut low = None;
    for i in 0..n {
        let offset = word_inside(src, at + 2 + 2 * i);
        if offset == 0 {
            continue;
        }
        if has_bit(marks, 0, at + offset) {
            continue;
        }
        if found_before(low, at + offset) {
            continue;
        }
        let found = check_member(member, src, at + offset);
        if found.is_none() {
            put_bit(marks, 0, at + offset);
        }
        low = lowest(low, found);
    }
    low
}

// The fault of the set at `at`: its own place if its count or its offsets do not lie inside the source, else the lowest among its members.
// `marks` has a mark of no place but those of members that are sound; where it has a bit for each member each is checked once, however many sets share it.
#[tactic(auto, unfolding(meaning::specs::Fault::set_fault, meaning::specs::Fault::part_fault, meaning::specs::Words::inside))]
pub fn check_set(member: Member, src: &[u8], at: usize, marks: &mut [u32]) -> Option<usize>
    requires { (at < 0x80_0000_0000) × Marked (member_fault member src.now) None marks.old }
    ensures { (result ≡ set_fault (member_fault member src.now) src.now at) × Marked (member_fault member src.now) None marks.new }
{
    if !inside(src, at, 2) {
        return Some(at);
    }
    let n = word_at(src, at);
    if !inside(src, at + 2, 2 * n) {
        return Some(at);
    }
    check_members(member, src, at, n, marks)
}

// Whether no record of the rule at `at` points past it. A rule whose place has a mark was asked before; one that is good gets a mark, where `marks` has room for it.
fn within_once(chained: bool, src: &[u8], at: usize, marks: &mut [u32]) -> bool
    requires { (at < 0x100_0000_0000) × Marked (good_rule chained src.now) true marks.old }
    ensures { (result ≡ rule_within (rule chained src.now at)) × Marked (good_rule chained src.now) true marks.new }
{
    if has_bit(marks, 0, at) {
        return true;
    }
    if !rule_within(chained, src, at) {
        return false;
    }
    put_bit(marks, 0, at);
    true
}

// The same of the rule that the offset at `slot` reaches from `base`; a null offset reaches none.
fn reached_within(chained: bool, src: &[u8], base: usize, slot: usize, marks: &mut [u32]) -> bool
    requires { (base < 65536) × Marked (good_rule chained src.now) true marks.old }
    ensures { (result ≡ passes rule_within (rule chained src.now) src.now base slot) × Marked (good_rule chained src.now) true marks.new }
{
    let offset = word_at(src, slot);
    if offset == 0 {
        return true;
    }
    within_once(chained, src, base + offset, marks)
}

// Whether no record of the rules of `n` sets, whose offsets stand from `slot` on, points past its rule: both loops are left at the first that does.
// `marks` has a mark of no place but those of rules that are good; where it has a bit for each rule each is asked once, however many sets share it.
pub fn sets_within(chained: bool, src: &[u8], slot: usize, n: usize, marks: &mut [u32]) -> bool
    requires { (slot < 65536) × (n < 65536) × Marked (good_rule chained src.now) true marks.old }
    ensures { result ≡ sets_within (reaches (rule_set chained src.now) src.now 0 slot n) }
{
    let mut within = true;
    'sets: for i in 0..n {
        let set = word_at(src, slot + 2 * i);
        let rules = set_count(src, set);
        for k in 0..rules {
            if !reached_within(chained, src, set, set + 2 + 2 * k, marks) {
                within = false;
                break 'sets;
            }
        }
    }
    within
}
