// The call that compares: a kind, two subtables of it and a lent buffer, and the first answer that applies, the left subtable's refusals first.
#![tactic(auto)]

ghost use Rattle.std.specs.Prelude.{◌≡◌, ◌+◌, ◌*◌, ◌<◌};
ghost use Rattle.differences.specs.Compare.{refusal, compare};
ghost use Rattle.compare_refusals.specs.Answers.{number_of, length_of, compared_of, decoded};

use compare_lists::lay;
use compare_refusals::{Refusal, judge};

// The call with lent cells, whatever they hold: what differs between two subtables of this kind, listed in the buffer, with how many bytes the list takes, or the first of the refusals that applies.
// Where the cells are too few our own are taken; `set_differences::NUM`, `NUMS`, `HEADS` and `LINKS` are enough. Only rules in format 1 or 2 need any.
pub fn compare_in(
    kind: usize,
    left: &[u8],
    right: &[u8],
    num: &mut [u32],
    nums: &mut [u32],
    heads: &mut [u32],
    links: &mut [u32],
    out: &mut [u8],
) -> Result<usize, Refusal>
    ensures { (compared_of result out.new ≡ compare kind left.now right.now out.old) × (length_of result < 0x100_0000_0000_0000) }
{
    judge(kind, left, right)?;
    let size = lay(kind, left, right, num, nums, heads, links, out);
    if out.len() < size {
        return Err(Refusal::NoRoom(size));
    }
    Ok(size)
}

// The call without lent cells.
pub fn compare(kind: usize, left: &[u8], right: &[u8], out: &mut [u8]) -> Result<usize, Refusal>
    ensures { (compared_of result out.new ≡ compare kind left.now right.now out.old) × (length_of result < 0x100_0000_0000_0000) }
{
    let mut num = [0u32; 1];
    let mut nums = [0u32; 1];
    let mut heads = [0u32; 1];
    let mut links = [0u32; 1];
    compare_in(
        kind, left, right, &mut num, &mut nums, &mut heads, &mut links, out,
    )
}

// The number of an answer in document 01.
pub fn number_of(a: Result<usize, Refusal>) -> usize
    ensures { result ≡ number_of a }
{
    match a {
        Ok(_) => 0,
        Err(Refusal::BadKind) => 1,
        Err(Refusal::LongSource) => 4,
        Err(Refusal::BadFormat) => 5,
        Err(Refusal::Malformed(_)) => 6,
        Err(Refusal::Device) => 7,
        Err(Refusal::NoRoom(_)) => 10,
    }
}

// The length that comes with an answer.
pub fn length_of(a: Result<usize, Refusal>) -> usize
    ensures { result ≡ length_of a }
{
    match a {
        Ok(n) => n,
        Err(Refusal::Malformed(place)) => place,
        Err(Refusal::NoRoom(n)) => n,
        Err(_) => 0,
    }
}

// An answer as one number: its number times 2^56, plus its length, which can pass 32 bits.
fn one_number(a: Result<usize, Refusal>) -> u64
    requires { length_of a < 0x100_0000_0000_0000 }
    ensures { result ≡ number_of a * 0x100_0000_0000_0000 + length_of a }
{
    number_of(a) as u64 * 0x100_0000_0000_0000 + length_of(a) as u64
}

// The call as other languages make it, through `compare_c`, on numbers and byte slices. The answer is one number: the answer's number times 2^56, plus its length.
pub fn gillcurtain_compare(kind: u64, left: &[u8], right: &[u8], out: &mut [u8]) -> u64
    ensures { decoded result out.new ≡ compare kind left.now right.now out.old }
{
    one_number(compare(kind as usize, left, right, out))
}

// The same with lent cells, as `compare_in` takes them.
pub fn gillcurtain_compare_in(
    kind: u64,
    left: &[u8],
    right: &[u8],
    num: &mut [u32],
    nums: &mut [u32],
    heads: &mut [u32],
    links: &mut [u32],
    out: &mut [u8],
) -> u64
    ensures { decoded result out.new ≡ compare kind left.now right.now out.old }
{
    one_number(compare_in(kind as usize, left, right, num, nums, heads, links, out))
}
