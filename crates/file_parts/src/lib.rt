// Parts of a file whose start and length stand in its trailer, in four bytes each.
#![tactic(auto)]

ghost use Rattle.std.specs.Prelude.{◌≡◌, true, ◌<◌, length};
ghost use Rattle.meaning.specs.Job.{part_at, bytes_of};
ghost use Rattle.file_parts.specs.Parts.{ends_by};

use lookup_list::{long_at, part};

// Whether the part whose start and length stand at `at` ends by `end`.
pub fn ends_by(file: &[u8], at: usize, end: usize) -> bool
    requires { at < 0x10_0000 }
    ensures { result ≡ ends_by (part_at file.now at) end }
{
    long_at(file, at) + long_at(file, at + 4) <= end
}

// The part whose start and length stand at `at`, as a part of the lent file.
pub fn part_at(file: &[u8], at: usize) -> &[u8]
    requires { (at < 0x10_0000) × (ends_by (part_at file.now at) (length file.now) ≡ true) }
    ensures { result.now ≡ bytes_of file.now (part_at file.now at) }
{
    part(file, long_at(file, at), long_at(file, at + 4))
}
