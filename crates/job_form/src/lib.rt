// Whether a file is a label job: its length, its tag and its parts.
#![tactic(auto)]

ghost use Rattle.std.specs.Prelude.{◌≡◌, ◌+◌, ◌≤◌, ◌<◌, length};
ghost use Rattle.meaning.specs.Job.{part_at, before, good_job};

use job_parts::{TRAILER, long_at};
use job_tags::is_tagged;

// The most bytes of a job file.
const JOB_LIMIT: usize = 65536;

// Whether the part whose start and length stand at `at` lies wholly before the trailer.
fn is_before(file: &[u8], at: usize) -> bool
    requires { (30 ≤ length file.now) × (at < 65536) }
    ensures { result ≡ before file.now (part_at file.now at) }
{
    long_at(file, at) + long_at(file, at + 4) <= file.len() - TRAILER
}

// Whether the file is a job: of 30 bytes to the limit, it ends in a tag, and its three parts lie wholly before the trailer.
pub fn good_job(file: &[u8]) -> bool
    ensures { result ≡ good_job file.now }
{
    if file.len() < TRAILER {
        return false;
    }
    if JOB_LIMIT < file.len() {
        return false;
    }
    if !is_tagged(file) {
        return false;
    }
    let at = file.len() - TRAILER;
    if !is_before(file, at + 2) {
        return false;
    }
    if !is_before(file, at + 10) {
        return false;
    }
    is_before(file, at + 18)
}
