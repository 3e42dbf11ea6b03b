// Class tables: checked.
#![tactic(auto)]

ghost use Rattle.std.specs.Prelude.{◌≡◌, true, ◌+◌, ◌*◌, ◌<◌};
ghost use Rattle.meaning.specs.Words.{triples};
ghost use Rattle.meaning.specs.Parts.{ranges_ascend, classes_sound};
ghost use Rattle.meaning.specs.Fault.{classes_fault};
ghost use Rattle.classes.specs.Formats.{array_sound};

use wire::{inside, word_at};

// Where the class table at `at` is faulty: at its start, or nowhere.
#[tactic(auto, unfolding(meaning::specs::Fault::classes_fault, meaning::specs::Fault::part_fault))]
pub fn check(src: &[u8], at: usize) -> Option<usize>
    requires { at < 0x1_0000_0000_0000 }
    ensures { result ≡ classes_fault src.now at }
{
    if sound(src, at) {
        return None;
    }
    Some(at)
}

// Whether the class table at `at` lies inside the source, has format 1 or 2, and ascends or ends by glyph 65,535.
fn sound(src: &[u8], at: usize) -> bool
    requires { at < 0x1_0000_0000_0000 }
    ensures { result ≡ classes_sound src.now at }
{
    if !inside(src, at, 4) {
        return false;
    }
    let format = word_at(src, at);
    if format == 1 {
        return array_sound(src, at);
    }
    if format != 2 {
        return false;
    }
    let n = word_at(src, at + 2);
    if !inside(src, at, 4 + 6 * n) {
        return false;
    }
    ranges_ascend(src, at + 4, n)
}

// Whether the class array of the table at `at` lies inside the source and ends by glyph 65,535.
fn array_sound(src: &[u8], at: usize) -> bool
    requires { at < 0x1_0000_0000_0000 }
    ensures { result ≡ array_sound src.now at }
{
    if !inside(src, at, 6) {
        return false;
    }
    let n = word_at(src, at + 4);
    if !inside(src, at, 6 + 2 * n) {
        return false;
    }
    word_at(src, at + 2) + n <= 65536
}

// Whether each of the `n` ranges from `at` on has its start at most its end, and they ascend without overlap.
fn ranges_ascend(src: &[u8], at: usize, n: usize) -> bool
    requires { at + 6 * n < 0x1_0000_0000_0000_0000 }
    ensures { result ≡ ranges_ascend 0 (triples src.now at n) }
{
    let mut low = 0;
    for i in 0..n {
        let first = word_at(src, at + 6 * i);
        let last = word_at(src, at + 6 * i + 2);
        if first < low {
            return false;
        }
        if last < first {
            return false;
        }
        low = last + 1;
    }
    true
}
