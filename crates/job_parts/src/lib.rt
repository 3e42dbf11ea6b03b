// The parts of a label job that its trailer points back to.
#![tactic(auto)]

ghost use Rattle.std.specs.Prelude.{◌≡◌, true, ◌+◌, ◌<◌};
ghost use Rattle.meaning.specs.Job.{long, part_at, table_part, glyph_part, lookup_part, before, good_job, bytes_of};

use wire::word_at;

// The bytes of the trailer: the kind, in two bytes, then start and length of each part, in four bytes each, then the tag.
pub const TRAILER: usize = 30;

// The number of four bytes whose first stands at `at`.
pub fn long_at(file: &[u8], at: usize) -> usize
    requires { at < 0x1_0000_0000 }
    ensures { (result ≡ long file.now at) × (result < 0x1_0000_0000) }
{
    word_at(file, at) * 65536 + word_at(file, at + 2)
}

// The part whose start and length stand at `at`, as a part of the lent file.
fn part(file: &[u8], at: usize) -> &[u8]
    requires { (at < 65536) × (before file.now (part_at file.now at) ≡ true) }
    ensures { result.now ≡ bytes_of file.now (part_at file.now at) }
{
    let start = long_at(file, at);
    let end = start + long_at(file, at + 4);
    &file[start..end]
}

// The table of a job, as a part of the lent file.
pub fn table_part(file: &[u8]) -> &[u8]
    requires { good_job file.now ≡ true }
    ensures { result.now ≡ bytes_of file.now (table_part file.now) }
{
    part(file, file.len() - TRAILER + 2)
}

// The glyph map of a job, as a part of the lent file.
pub fn glyph_part(file: &[u8]) -> &[u8]
    requires { good_job file.now ≡ true }
    ensures { result.now ≡ bytes_of file.now (glyph_part file.now) }
{
    part(file, file.len() - TRAILER + 10)
}

// The lookup map of a job, as a part of the lent file.
pub fn lookup_part(file: &[u8]) -> &[u8]
    requires { good_job file.now ≡ true }
    ensures { result.now ≡ bytes_of file.now (lookup_part file.now) }
{
    part(file, file.len() - TRAILER + 18)
}
