// Why a call is refused, and the first refusal that applies before the cut, in the written order of documents 01 and 02.
#![tactic(auto)]

ghost use Rattle.std.specs.Prelude.{◌≡◌, length, ltb, OnOk, IfErr, Some};
ghost use Rattle.meaning.specs.Maps.{good_form};
ghost use Rattle.meaning.specs.Subset.{limit, good_kind, good_packing};
ghost use Rattle.refusals.specs.Answers.{refusal_of};
ghost use Rattle.refusals.specs.Refusals.{Passes, Refuses};
ghost use Rattle.refusals.specs.Said.{said};

use checks::{check, other_format};
use maps::{good_glyphs, good_lookups};
use marks::Marks;
use pair_pos::pair_device;
use records::records_within;
use room::{LIMIT, NotLaid};
use std::error::Error;
use std::fmt;

// Why a call is refused, in the order in which documents 01 and 02 try it. With `Malformed` comes the lowest start among the faulty parts, and with `NoRoom` the length needed.
// `BadJob` is given by the label job alone.
#[derive(Clone, Copy, Debug, PartialEq, Eq, Hash)]
pub enum Refusal {
    BadKind,
    BadForm,
    BadLayout,
    BadGlyphs,
    BadLookups,
    LongSource,
    BadFormat,
    Malformed(usize),
    Device,
    PastRule,
    Nothing,
    TooBig,
    NoRoom(usize),
    BadJob,
}

// Why a call is refused where nothing was laid.
impl From<NotLaid> for Refusal {
    ghost from_gives = { λ e r. r ≡ refusal_of e };

    fn from(e: NotLaid) -> Refusal {
        match e {
            NotLaid::Nothing => Refusal::Nothing,
            NotLaid::TooBig => Refusal::TooBig,
            NotLaid::NoRoom(n) => Refusal::NoRoom(n),
        }
    }
}

// A refusal in the documents' words.
impl fmt::Display for Refusal {
    ghost output = { λ r. Some (said r) };

    fn fmt<W: fmt::Write>(&self, f: &mut fmt::Formatter<W>) -> fmt::Result {
        match self {
            Refusal::BadKind => write!(f, "the kind is none of 1 to 5"),
            Refusal::BadForm => write!(f, "glyph maps have no such form"),
            Refusal::BadLayout => write!(f, "there is no such layout"),
            Refusal::BadGlyphs => write!(f, "the glyph map is not good"),
            Refusal::BadLookups => write!(f, "the lookup map is not good"),
            Refusal::LongSource => write!(f, "the source is over 262,144 bytes"),
            Refusal::BadFormat => write!(f, "the kind has no such format"),
            Refusal::Malformed(place) => write!(
                f,
                "the source is malformed, in the part at {place}"
            ),
            Refusal::Device => write!(f, "a value format asks for a device table"),
            Refusal::PastRule => write!(f, "a record points past its rule"),
            Refusal::Nothing => write!(f, "nothing survives"),
            Refusal::TooBig => write!(
                f,
                "the result is over 262,144 bytes, or an offset or a count in it over 65,535"
            ),
            Refusal::NoRoom(needed) => write!(f, "the buffer is too short: it takes {needed}"),
            Refusal::BadJob => write!(f, "the job file is faulty"),
        }
    }
}

impl Error for Refusal {}

// Whether the kind is 1 context, 2 chained, 3 ligature, 4 pair or 5 single substitution.
#[tactic(auto, unfolding(meaning::specs::Subset::good_kind))]
fn good_kind(kind: usize) -> bool
    ensures { result ≡ good_kind kind }
{
    matches!(kind, 1..=5)
}

// Whether glyph maps have a form with this mark: 4 pairs, or 6 runs.
#[tactic(auto, unfolding(meaning::specs::Maps::good_form))]
fn good_form(form: usize) -> bool
    ensures { result ≡ good_form form }
{
    matches!(form, 4 | 6)
}

// Whether there is a layout with this mark: 0 plain, or 1 packed.
fn good_layout(layout: usize) -> bool
    ensures { result ≡ good_packing layout }
{
    layout <= 1
}

// Whether a source is over the limit.
fn too_long(source: &[u8]) -> bool
    ensures { result ≡ ltb limit (length source.now) }
{
    LIMIT < source.len()
}

// The first of the refusals before the cut that applies, in their written order: 1, 13, 14, 2 to 7, and 12.
pub fn judge(marks: Marks, source: &[u8], glyphs: &[u8], lookups: &[u8]) -> Result<(), Refusal>
    ensures sound { OnOk result (Passes marks.kind marks.form marks.layout source.now glyphs.now lookups.now) }
    ensures refused { IfErr result (λ r. Refuses marks.kind marks.form marks.layout source.now glyphs.now lookups.now r) }
{
    if !good_kind(marks.kind) {
        return Err(Refusal::BadKind);
    }
    if !good_form(marks.form) {
        return Err(Refusal::BadForm);
    }
    if !good_layout(marks.layout) {
        return Err(Refusal::BadLayout);
    }
    if !good_glyphs(glyphs, marks.form) {
        return Err(Refusal::BadGlyphs);
    }
    if !good_lookups(lookups) {
        return Err(Refusal::BadLookups);
    }
    if too_long(source) {
        return Err(Refusal::LongSource);
    }
    if other_format(marks.kind, source) {
        return Err(Refusal::BadFormat);
    }
    if let Some(place) = check(marks.kind, source) {
        return Err(Refusal::Malformed(place));
    }
    if pair_device(marks.kind, source) {
        return Err(Refusal::Device);
    }
    if !records_within(marks.kind, source) {
        return Err(Refusal::PastRule);
    }
    Ok(())
}
