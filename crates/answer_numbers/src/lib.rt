// An answer as the number and the length that it is given as, one by one and both in one number.
#![tactic(auto)]

ghost use Rattle.std.specs.Prelude.{◌≡◌, ◌+◌, ◌*◌, ◌≤◌};
ghost use Rattle.refusals.specs.Answers.{number_of, length_of};

use refusals::Refusal;

// The number of an answer in documents 01 and 02.
pub fn number_of(a: Result<usize, Refusal>) -> usize
    ensures { result ≡ number_of a }
{
    match a {
        Ok(_) => 0,
        Err(Refusal::BadKind) => 1,
        Err(Refusal::BadForm) => 13,
        Err(Refusal::BadLayout) => 14,
        Err(Refusal::BadGlyphs) => 2,
        Err(Refusal::BadLookups) => 3,
        Err(Refusal::LongSource) => 4,
        Err(Refusal::BadFormat) => 5,
        Err(Refusal::Malformed(_)) => 6,
        Err(Refusal::Device) => 7,
        Err(Refusal::PastRule) => 12,
        Err(Refusal::Nothing) => 8,
        Err(Refusal::TooBig) => 9,
        Err(Refusal::NoRoom(_)) => 10,
        Err(Refusal::BadJob) => 11,
    }
}

// The length that comes with an answer.
pub fn length_of(a: Result<usize, Refusal>) -> usize
    ensures { result ≡ length_of a }
{
    match a {
        Ok(n) => n,
        Err(Refusal::Malformed(place)) => place,
        Err(Refusal::NoRoom(n)) => n,
        Err(_) => 0,
    }
}

// An answer as one number: its number times 2^56, plus its length.
pub fn one_number(a: Result<usize, Refusal>) -> u64
    requires { length_of a ≤ 262144 }
    ensures { result ≡ number_of a * 0x100_0000_0000_0000 + length_of a }
{
    number_of(a) as u64 * 0x100_0000_0000_0000 + length_of(a) as u64
}
