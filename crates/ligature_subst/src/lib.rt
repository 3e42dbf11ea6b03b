// A ligature: checked.
#![tactic(auto)]

ghost use Rattle.std.specs.Prelude.{◌≡◌, ◌+◌, ◌-◌, ◌*◌, ◌<◌};
ghost use Rattle.meaning.specs.Fault.{ligature_fault};

use wire::{inside, word_at};

// How many components a ligature with this count lists: all but the first; a count of 0 lists none.
fn listed(count: usize) -> usize
    ensures { result ≡ count - 1 }
{
    if 0 < count {
        return count - 1;
    }
    0
}

// Where the ligature at `at` is faulty: it is if its glyph, its count or its components do not lie inside the source.
#[tactic(auto, unfolding(meaning::specs::Fault::ligature_fault, meaning::specs::Fault::part_fault))]
pub fn check_ligature(src: &[u8], at: usize) -> Option<usize>
    requires { at < 0x8000_0000_0000 }
    ensures { result ≡ ligature_fault src.now at }
{
    if !inside(src, at, 4) {
        return Some(at);
    }
    let n = listed(word_at(src, at + 2));
    if !inside(src, at + 4, 2 * n) {
        return Some(at);
    }
    None
}
