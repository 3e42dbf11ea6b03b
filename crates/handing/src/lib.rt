// A layout in the area is finished: a gap between its head and its members is closed, and it is handed over to the buffer, which only this writes.
#![tactic(auto)]

ghost use Rattle.std.specs.Prelude.{◌≡◌, ◌++◌, ◌+◌, ◌-◌, ◌*◌, ◌<◌, ◌≤◌, length};
ghost use Rattle.std.proofs.lemmas.List.Edits.{sets};
ghost use Rattle.meaning.specs.Words.{words, flat};
ghost use Rattle.room.specs.Laid.{outcome_of, laid_as};
ghost use Rattle.handing.specs.Closed.{lessened, Closed};
ghost use Rattle.area.specs.Part.{part};

use area::put;
use room::{LIMIT, NotLaid, room};
use wire::word_inside;

// Less by `d`, modulo 65,536, each of the `n` words from `at` on. The limit, which no gap is over, is a multiple of 65,536.
pub fn lessen(area: &mut [u8], at: usize, n: usize, d: usize)
    requires { (at + 2 * n ≤ length area.old) × (d ≤ 262144) }
    ensures { area.new ≡ sets area.old at (flat (lessened d (words area.old at n))) }
{
    for i in 0..n {
        let p = at + 2 * i;
        let w = word_inside(area, p);
        put(area, p, w + LIMIT - d);
    }
}

// The `n` bytes from `from` on, moved down to `to`.
fn move_down(area: &mut [u8], to: usize, from: usize, n: usize)
    requires { (to ≤ from) × (from + n ≤ length area.old) }
    ensures { area.new ≡ sets area.old to (part area.old from n) }
{
    area.copy_within(from..from + n, to);
}

// The `k` offsets from `at` on, and what they reach, which stands from `first` up to `end`, moved together; the place after it.
pub fn close_up(area: &mut [u8], at: usize, k: usize, first: usize, end: usize) -> usize
    requires { (at + 2 * k ≤ first) × (first ≤ end) × (end ≤ length area.old) × (first ≤ at + 2 * k + 262144) }
    ensures { Closed area.old at k first end area.new result }
{
    let slot = at + 2 * k;
    if slot == first {
        return end;
    }
    let d = first - slot;
    lessen(area, at, k, d);
    move_down(area, slot, first, end - first);
    end - d
}

// The `n` bytes of the area from `from` on, copied to the buffer at `to`.
fn copy(area: &[u8], from: usize, n: usize, out: &mut [u8], to: usize)
    requires { (from + n ≤ length area.now) × (to + n ≤ length out.old) }
    ensures { out.new ≡ sets out.old to (part area.now from n) }
{
    // Byte by byte: `copy_from_slice` calls the C library's memmove, which the archive for C does not ask for.
    for i in 0..n {
        let b = area[from + i];
        out[to + i] = b;
    }
}

// The head of a layout and its rest, which stands from `first` up to `end`, laid into the buffer if they are not over the limit, each offset and count fits a word, as `fits` says, and the buffer is not shorter; else the buffer is untouched.
pub fn hand_over(
    area: &[u8],
    head: usize,
    first: usize,
    end: usize,
    fits: bool,
    out: &mut [u8],
) -> Result<usize, NotLaid>
    requires { (head ≤ first) × (first ≤ end) × (end ≤ length area.now) }
    ensures { outcome_of result out.new ≡ laid_as fits out.old (part area.now 0 head ++ part area.now first (end - first)) }
{
    let rest = end - first;
    let size = room(head + rest, fits, out.len())?;
    copy(area, 0, head, out, 0);
    copy(area, first, rest, out, head);
    Ok(size)
}
