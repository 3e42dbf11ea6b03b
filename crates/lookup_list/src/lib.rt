// The list of lookups: kind, start and length in a lent buffer, 10 bytes each. Read, and tested.
#![tactic(auto)]

ghost use Rattle.std.specs.Prelude.{◌≡◌, ◌||◌, ◌+◌, ◌≤◌, ◌<◌, length, eqb};
ghost use Rattle.meaning.specs.Job.{long, bytes_of};
ghost use Rattle.replaying.specs.Listed.{entry_at, good_entry, good_list};

use wire::word_at;

// The most lookups of a list.
pub const LIST_LIMIT: usize = 16;

// The number of four bytes whose first stands at `at`.
pub fn long_at(list: &[u8], at: usize) -> usize
    requires { at < 0x1_0000_0000 }
    ensures { (result ≡ long list.now at) × (result < 0x1_0000_0000) }
{
    word_at(list, at) * 65536 + word_at(list, at + 2)
}

// A part of the lent buffer.
pub fn part(buffer: &[u8], start: usize, len: usize) -> &[u8]
    requires { start + len ≤ length buffer.now }
    ensures { result.now ≡ bytes_of buffer.now (record { start = start; len = len }) }
{
    &buffer[start..start + len]
}

// Whether a lookup of this kind may be listed.
fn good_kind(kind: usize) -> bool
    ensures { result ≡ eqb kind 1 || (eqb kind 2 || eqb kind 5) }
{
    if kind == 1 {
        return true;
    }
    if kind == 2 {
        return true;
    }
    kind == 5
}

// Whether the entry at `at` has such a kind, and its part lies inside the buffer.
fn good_entry(list: &[u8], buffer: &[u8], at: usize) -> bool
    requires { at < 0x1_0000 }
    ensures { result ≡ good_entry buffer.now (entry_at list.now at) }
{
    if !good_kind(word_at(list, at)) {
        return false;
    }
    long_at(list, at + 2) + long_at(list, at + 6) <= buffer.len()
}

// Whether the list has whole entries, at most 16 of them, each good.
pub fn good_list(list: &[u8], buffer: &[u8]) -> bool
    ensures { result ≡ good_list list.now buffer.now }
{
    if list.len() % 10 != 0 {
        return false;
    }
    let many = list.len() / 10;
    if LIST_LIMIT < many {
        return false;
    }
    for k in 0..many {
        if !good_entry(list, buffer, 10 * k) {
            return false;
        }
    }
    true
}
