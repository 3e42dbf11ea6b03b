// The replay and its cost as other languages ask for them, through `replay_call_c`, on byte slices and one number.
#![tactic(auto)]

ghost use Rattle.std.specs.Prelude.{◌≡◌, ◌+◌, ◌*◌, ◌≤◌, ◌<◌};
ghost use Rattle.std.proofs.lemmas.List.Edits.{sets};
ghost use Rattle.replaying.specs.Replay.{replay};
ghost use Rattle.replaying.specs.Cost.{replay_cost};
ghost use Rattle.tallies.specs.Counting.{tally_of};
ghost use Rattle.replay_call.specs.Given.{bytes8, tally_bytes, Gives, Costs};

use put_words::put_entry;
use replay::replay_all;
use replay_cost::replay_cost;
use tallies::Tally;

// A number in eight bytes from `at` on, the highest first, each where there is room for it; the place after them.
fn put_eight(out: &mut [u8], at: usize, n: usize) -> usize
    requires { at < 0x1_0000 }
    ensures { (result ≡ at + 8) × (out.new ≡ sets out.old at (bytes8 n)) }
{
    let p = put_entry(out, at, n / 0x1_0000_0000_0000, n / 0x1_0000_0000);
    put_entry(out, p, n / 0x1_0000, n)
}

// A tally at the front, eight bytes a number, where there is room.
fn put_tally(out: &mut [u8], tally: Tally)
    ensures { out.new ≡ sets out.old 0 (tally_bytes (tally_of tally)) }
{
    let p = put_eight(out, 0, tally.runs);
    let q = put_eight(out, p, tally.agreements);
    put_eight(out, q, tally.first);
}

// An answer as one number: its number times 2^56, plus its place.
fn one_number(number: usize, place: usize) -> u64
    requires { (number ≤ 18) × (place ≤ 131070) }
    ensures { result ≡ number * 0x100_0000_0000_0000 + place }
{
    number as u64 * 0x100_0000_0000_0000 + place as u64
}

// The replay of a trace over a list of lookups in a buffer. The answer is one number: the answer's number times 2^56, plus the place that comes with 6.
// The tally is written at the front of `tally`: runs, agreements and the first disagreeing run, eight bytes each, the highest first; a slice under 24 bytes gets what fits.
// A list from an unknown hand can nest to more steps than anyone waits for: it is replayed under the caller's time limit, or after its cost was asked.
pub fn gillcurtain_replay(list: &[u8], buffer: &[u8], trace: &[u8], tally: &mut [u8]) -> u64
    ensures { Gives (replay list.now buffer.now trace.now) tally.old result tally.new }
{
    let r = replay_all(list, buffer, trace);
    put_tally(tally, r.tally);
    one_number(r.number, r.place)
}

// The cost of a list of lookups in a buffer, told before any run. The answer is one number, as that of `gillcurtain_replay`; 16 and 18 are not given.
// With 0 the most lookups that a replay asks for each glyph that went into its runs are written at the front of `steps`, cut off at 2^63, and with a refusal 0: eight bytes, the highest first; a shorter slice gets what fits.
pub fn gillcurtain_replay_cost(list: &[u8], buffer: &[u8], steps: &mut [u8]) -> u64
    ensures { Costs (replay_cost list.now buffer.now) steps.old result steps.new }
{
    let c = replay_cost(list, buffer);
    put_eight(steps, 0, c.steps);
    one_number(c.number, c.place)
}
