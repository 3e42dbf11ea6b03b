// Why the call that compares is refused, the left subtable first.
#![tactic(auto)]

ghost use Rattle.std.specs.Prelude.{◌≡◌, ◌&&◌, not};
ghost use Rattle.meaning.specs.Words.{word, inside};
ghost use Rattle.differences.specs.Compare.{compared_kind, compared_format, table_refusal, refusal};
ghost use Rattle.compare_refusals.specs.Answers.{refusal_of};

use checks::check;
use pair_pos::pair_device;
use room::LIMIT;
use wire::{inside, word_at};

// Why a comparison is refused, in the order in which it is tried. With `Malformed` comes the lowest start among the faulty parts, and with `NoRoom` the length needed.
#[derive(Clone, Copy, Debug, PartialEq, Eq, Hash)]
pub enum Refusal {
    BadKind,
    LongSource,
    BadFormat,
    Malformed(usize),
    Device,
    NoRoom(usize),
}

// Whether subtables of the kind are compared: 1 context, 2 chained, 3 ligature, 4 pair.
#[tactic(auto, unfolding(differences::specs::Compare::compared_kind))]
fn compared_kind(kind: usize) -> bool
    ensures { result ≡ compared_kind kind }
{
    matches!(kind, 1..=4)
}

// Whether the format is compared: of contexts 1, 2 and 3, of ligatures and pairs 1.
fn compared_format(kind: usize, format: usize) -> bool
    ensures { result ≡ compared_format kind format }
{
    if 2 < kind {
        return format == 1;
    }
    if format < 1 {
        return false;
    }
    format <= 3
}

// Whether the first two bytes stand and hold a format that is not compared.
fn other_format(kind: usize, src: &[u8]) -> bool
    ensures { result ≡ inside src.now 0 2 && not (compared_format kind (word src.now 0)) }
{
    if !inside(src, 0, 2) {
        return false;
    }
    !compared_format(kind, word_at(src, 0))
}

// Why a subtable of this kind is refused, if it is: over the limit, a format that is not compared, malformed, or device bits.
fn judge_one(kind: usize, src: &[u8]) -> Result<(), Refusal>
    ensures { refusal_of result ≡ table_refusal kind src.now }
{
    if LIMIT < src.len() {
        return Err(Refusal::LongSource);
    }
    if other_format(kind, src) {
        return Err(Refusal::BadFormat);
    }
    if let Some(place) = check(kind, src) {
        return Err(Refusal::Malformed(place));
    }
    if pair_device(kind, src) {
        return Err(Refusal::Device);
    }
    Ok(())
}

// Why a call is refused, if it is: its kind, then the left subtable, then the right one.
pub fn judge(kind: usize, left: &[u8], right: &[u8]) -> Result<(), Refusal>
    ensures { refusal_of result ≡ refusal kind left.now right.now }
{
    if !compared_kind(kind) {
        return Err(Refusal::BadKind);
    }
    judge_one(kind, left)?;
    judge_one(kind, right)
}
