// The label job: a lent file whose last 30 bytes, the trailer, point back to a table, a glyph map and a lookup map.
#![tactic(auto)]

ghost use Rattle.std.specs.Prelude.{◌≡◌};
ghost use Rattle.meaning.specs.Job.{job};
ghost use Rattle.refusals.specs.Answers.{outcome};

use job_form::good_job;
use job_parts::{TRAILER, glyph_part, lookup_part, table_part};
use job_tags::form_of;
use marks::Marks;
use refusals::Refusal;
use subset::subset;
use wire::word_at;

// The job of a file, on a lent buffer: what the call answers on the file's kind and parts for the plain layout, or that the file is faulty, which is tested first.
pub fn run(file: &[u8], out: &mut [u8]) -> Result<usize, Refusal>
    ensures { outcome result out.new ≡ job file.now out.old }
{
    if !good_job(file) {
        return Err(Refusal::BadJob);
    }
    let marks = Marks {
        kind: word_at(file, file.len() - TRAILER),
        form: form_of(file),
        layout: 0,
    };
    subset(
        marks,
        table_part(file),
        glyph_part(file),
        lookup_part(file),
        out,
    )
}
