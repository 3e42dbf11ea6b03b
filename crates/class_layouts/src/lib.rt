// The layout of format 2 of contexts and chained contexts, plain or packed as it is asked for, and by whether its sets share rules.
#![tactic(auto)]

ghost use Rattle.std.specs.Prelude.{◌<◌, length};
ghost use Rattle.room.specs.Laid.{enough_area};
ghost use Rattle.member_sets.specs.Dead.{Dead};
ghost use Rattle.kept_rules.specs.Left.{maps_in, rule_left};
ghost use Rattle.tried.specs.Tries.{Tries};
ghost use Rattle.class_finish.specs.Written.{Writes, left_into};

use class_booked::{write_booked, write_packed};
use class_finish::Prepared;
use class_places::slots_at;
use member_sets::crowded;
use places::MEMBER_MARKS;
use tried::NotCut;
use wire::word_at;

// What is left of a context, of which the cells hold what is needed, with a book for the packed layout, if that is asked for, and else with none to speak of. `dead` has marks at the places of rules that are known to go.
fn write_context(
    src: &[u8],
    glyphs: &[u8],
    t: &mut [u32],
    prepared: Prepared,
    dead: &mut [u32],
    rounds: usize,
    area: &mut [u8],
    out: &mut [u8],
) -> Result<usize, NotCut>
    requires { Writes src.now glyphs.now t.old prepared area.old × Dead (rule_left prepared.tail.chained (maps_in t.old prepared.maps) src.now) dead.old }
    ensures { Tries ⊥ (length area.old < enough_area) result out.old out.new (left_into out.old src.now glyphs.now t.old prepared) }
{
    if prepared.packing == 1 {
        return write_packed(src, glyphs, t, prepared, dead, rounds, area, out);
    }
    let mut no_book = [0u32; 1];
    write_booked(src, glyphs, t, prepared, dead, area, &mut no_book, out)
}

// The same where the sets share rules, with a mark for each place that a rule can start at.
// It calls itself, so that the compiler keeps its large array out of its caller's frame: the small job would pay for it, and docs/SPEED.md says how much. How often it does, `rounds`, is 0 for a map of whole entries.
fn write_crowded(
    src: &[u8],
    glyphs: &[u8],
    t: &mut [u32],
    prepared: Prepared,
    rounds: usize,
    area: &mut [u8],
    out: &mut [u8],
) -> Result<usize, NotCut>
    requires { Writes src.now glyphs.now t.old prepared area.old }
    ensures { Tries ⊥ (length area.old < enough_area) result out.old out.new (left_into out.old src.now glyphs.now t.old prepared) }
{
    if rounds != 0 {
        return write_crowded(src, glyphs, t, prepared, rounds - 1, area, out);
    }
    let mut dead = [0u32; MEMBER_MARKS];
    write_context(src, glyphs, t, prepared, &mut dead, rounds, area, out)
}

// The same with a memory of the rules that go, if the sets share rules, and else with none to speak of.
pub fn write_left(
    src: &[u8],
    glyphs: &[u8],
    t: &mut [u32],
    prepared: Prepared,
    rounds: usize,
    area: &mut [u8],
    out: &mut [u8],
) -> Result<usize, NotCut>
    requires { Writes src.now glyphs.now t.old prepared area.old }
    ensures { Tries ⊥ (length area.old < enough_area) result out.old out.new (left_into out.old src.now glyphs.now t.old prepared) }
{
    let slots = slots_at(prepared.tail.chained);
    if crowded(src, slots, word_at(src, slots - 2)) {
        return write_crowded(src, glyphs, t, prepared, rounds, area, out);
    }
    let mut dead = [0u32; 1];
    write_context(src, glyphs, t, prepared, &mut dead, rounds, area, out)
}
