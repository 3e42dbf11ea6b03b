// The comparison for other languages: what they call of `compare`, under its own names and clauses.
#![tactic(auto)]

ghost use Rattle.std.specs.Prelude.{◌≡◌};
ghost use Rattle.differences.specs.Compare.{compare};
ghost use Rattle.compare_refusals.specs.Answers.{decoded};

// The call on numbers and byte slices. The answer is one number: the answer's number times 2^56, plus its length.
#[unsafe(no_mangle)]
pub extern "C" fn gillcurtain_compare(kind: u64, left: &[u8], right: &[u8], out: &mut [u8]) -> u64
    ensures { decoded result out.new ≡ compare kind left.now right.now out.old }
{
    compare::gillcurtain_compare(kind, left, right, out)
}

// The same with lent cells, as `compare::compare_in` takes them.
#[unsafe(no_mangle)]
pub extern "C" fn gillcurtain_compare_in(
    kind: u64,
    left: &[u8],
    right: &[u8],
    num: &mut [u32],
    nums: &mut [u32],
    heads: &mut [u32],
    links: &mut [u32],
    out: &mut [u8],
) -> u64
    ensures { decoded result out.new ≡ compare kind left.now right.now out.old }
{
    compare::gillcurtain_compare_in(kind, left, right, num, nums, heads, links, out)
}
