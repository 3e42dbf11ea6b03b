// The lookups of a list, checked as the subsetter checks its sources: 4, 5, 6 or 12 for the first faulty one.
#![tactic(auto)]

ghost use Rattle.std.specs.Prelude.{◌≡◌, true, ◌*◌, ◌/◌, ◌<◌, length};
ghost use Rattle.meaning.specs.Words.{word};
ghost use Rattle.replaying.specs.Listed.{listed, good_list, lookup_refusal, first_refusal};
ghost use Rattle.lookup_list.specs.Ready.{source_at};
ghost use Rattle.lookup_checks.specs.Checks.{number_of, place_of, refusal_by};

use checks::{check, other_format};
use lookup_list::{long_at, part};
use records::records_within;
use room::LIMIT;
use wire::word_at;

// Why a lookup is refused, in the order in which it is tried. With `Malformed` comes the lowest start among the faulty parts.
#[derive(Clone, Copy, Debug, PartialEq, Eq)]
pub enum LookupRefusal {
    LongSource,
    BadFormat,
    Malformed(usize),
    PastRule,
}

impl LookupRefusal {
    // The documents' number of the refusal.
    pub fn number(self) -> usize
        ensures { result ≡ number_of self }
    {
        match self {
            LookupRefusal::LongSource => 4,
            LookupRefusal::BadFormat => 5,
            LookupRefusal::Malformed(_) => 6,
            LookupRefusal::PastRule => 12,
        }
    }

    // And its place, which is 0 for all but `Malformed`.
    pub fn place(self) -> usize
        ensures { result ≡ place_of self }
    {
        match self {
            LookupRefusal::Malformed(place) => place,
            _ => 0,
        }
    }
}

// What is wrong with a lookup: over the limit, a format that its kind has not, malformed, or a record past its rule.
#[tactic(auto, unfolding(replaying::specs::Listed::lookup_refusal, replaying::specs::Listed::malformed, replaying::specs::Listed::or_else, meaning::specs::Subset::limit))]
fn check_lookup(kind: usize, src: &[u8]) -> Result<(), LookupRefusal>
    ensures { refusal_by result ≡ lookup_refusal kind src.now }
{
    if LIMIT < src.len() {
        return Err(LookupRefusal::LongSource);
    }
    if other_format(kind, src) {
        return Err(LookupRefusal::BadFormat);
    }
    if let Some(place) = check(kind, src) {
        return Err(LookupRefusal::Malformed(place));
    }
    if !records_within(kind, src) {
        return Err(LookupRefusal::PastRule);
    }
    Ok(())
}

// The same of a lookup of a good list, by its place from 0.
fn check_listed(list: &[u8], buffer: &[u8], lookup: usize) -> Result<(), LookupRefusal>
    requires { (good_list list.now buffer.now ≡ true) × (lookup < length list.now / 10) }
    ensures { refusal_by result ≡ lookup_refusal (word list.now (10 * lookup)) (source_at list.now buffer.now lookup) }
{
    let src = part(
        buffer,
        long_at(list, 10 * lookup + 2),
        long_at(list, 10 * lookup + 6),
    );
    check_lookup(word_at(list, 10 * lookup), src)
}

// What is wrong with the first faulty lookup of a good list.
pub fn check_lookups(list: &[u8], buffer: &[u8]) -> Result<(), LookupRefusal>
    requires { good_list list.now buffer.now ≡ true }
    ensures { refusal_by result ≡ first_refusal buffer.now (listed list.now) }
{
    for lookup in 0..list.len() / 10 {
        check_listed(list, buffer, lookup)?;
    }
    Ok(())
}
