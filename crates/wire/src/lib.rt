// Big-endian words, read anywhere.
#![tactic(auto)]

ghost use Rattle.std.specs.Prelude.{◌≡◌, ◌+◌, ◌*◌, ◌<◌, length, get_or};
ghost use Rattle.meaning.specs.Words.{word, inside, ascends};
ghost use Rattle.laws.specs.Left.{column};

// The byte at `at`; 0 past the end.
pub fn byte(s: &[u8], at: usize) -> usize
    ensures { (result ≡ get_or s.now at 0) × (result < 256) }
{
    if at < s.len() {
        return s[at] as usize;
    }
    0
}

// The word at `at`, which lies inside: it is read without a test.
pub fn word_inside(s: &[u8], at: usize) -> usize
    requires { at + 1 < length s.now }
    ensures { (result ≡ word s.now at) × (result < 65536) }
{
    s[at] as usize * 256 + s[at + 1] as usize
}

// The word at `at`; bytes past the end read as 0. Both bytes are read after one test, so that they are read at once.
pub fn word_at(s: &[u8], at: usize) -> usize
    ensures { (result ≡ word s.now at) × (result < 65536) }
{
    if s.len() < 2 {
        return byte(s, at) * 256;
    }
    if s.len() - 1 <= at {
        return byte(s, at) * 256;
    }
    word_inside(s, at)
}

// Whether the `n` bytes from `at` on lie inside the source.
pub fn inside(s: &[u8], at: usize, n: usize) -> bool
    requires { (at < 0x1_0000_0000_0000) × (n < 0x1_0000_0000_0000) }
    ensures { result ≡ inside s.now at n }
{
    at + n <= s.len()
}

// Whether the first words of `n` records that are `step` bytes long, from `at` on, ascend strictly.
pub fn ascending(s: &[u8], at: usize, n: usize, step: usize) -> bool
    requires { at + step * n < 0x1_0000_0000_0000_0000 }
    ensures { result ≡ ascends (column s.now step at n) }
{
    let mut last = word_at(s, at);
    for i in 1..n {
        let next = word_at(s, at + step * i);
        if next <= last {
            return false;
        }
        last = next;
    }
    true
}
