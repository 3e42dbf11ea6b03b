// The replay and its cost for other languages: what they call of `replay_call`, under its own names and clauses.
#![tactic(auto)]

ghost use Rattle.replaying.specs.Replay.{replay};
ghost use Rattle.replaying.specs.Cost.{replay_cost};
ghost use Rattle.replay_call.specs.Given.{Gives, Costs};

// The replay of a trace over a list of lookups in a buffer. The answer is one number: the answer's number times 2^56, plus the place that comes with 6.
// The tally is written at the front of `tally`: runs, agreements and the first disagreeing run, eight bytes each, the highest first; a slice under 24 bytes gets what fits.
// A list from an unknown hand can nest to more steps than anyone waits for: it is replayed under the caller's time limit, or after its cost was asked.
#[unsafe(no_mangle)]
pub extern "C" fn gillcurtain_replay(
    list: &[u8],
    buffer: &[u8],
    trace: &[u8],
    tally: &mut [u8],
) -> u64
    ensures { Gives (replay list.now buffer.now trace.now) tally.old result tally.new }
{
    replay_call::gillcurtain_replay(list, buffer, trace, tally)
}

// The cost of a list of lookups in a buffer, told before any run. The answer is one number, as that of `gillcurtain_replay`; 16 and 18 are not given.
// With 0 the most lookups that a replay asks for each glyph that went into its runs are written at the front of `steps`, cut off at 2^63, and with a refusal 0: eight bytes, the highest first; a shorter slice gets what fits.
#[unsafe(no_mangle)]
pub extern "C" fn gillcurtain_replay_cost(list: &[u8], buffer: &[u8], steps: &mut [u8]) -> u64
    ensures { Costs (replay_cost list.now buffer.now) steps.old result steps.new }
{
    replay_call::gillcurtain_replay_cost(list, buffer, steps)
}
