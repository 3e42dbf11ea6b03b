// The tags that a label job ends in, one for each form of glyph map.
#![tactic(auto)]

ghost use Rattle.std.specs.Prelude.{◌≡◌, true, ◌+◌, ◌≤◌, ◌<◌, length};
ghost use Rattle.meaning.specs.Job.{eq_list, runs_tag, ends_in, tagged, form_of};

// Whether the file ends in this tag.
fn ends_in(file: &[u8], tag: &[u8]) -> bool
    requires { 30 ≤ length file.now }
    ensures { result ≡ ends_in tag.now file.now }
{
    let at = file.len() - 4;
    &file[at..] == tag
}

// Whether it ends in the tag of a glyph map of runs.
fn has_runs(file: &[u8]) -> bool
    requires { 30 ≤ length file.now }
    ensures { result ≡ ends_in runs_tag file.now }
{
    ends_in(file, b"LSJ2")
}

// Whether it ends in one of the tags.
pub fn is_tagged(file: &[u8]) -> bool
    requires { 30 ≤ length file.now }
    ensures { result ≡ tagged file.now }
{
    if ends_in(file, b"LSJ1") {
        return true;
    }
    has_runs(file)
}

// The mark of its glyph map's form: 6 for runs, 4 for pairs.
pub fn form_of(file: &[u8]) -> usize
    requires { 30 ≤ length file.now }
    ensures { result ≡ form_of file.now }
{
    if has_runs(file) {
        return 6;
    }
    4
}
