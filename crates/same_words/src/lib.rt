// Whether two sources have the same words, each from a place on.
#![tactic(auto)]

ghost use Rattle.std.specs.Prelude.{◌≡◌, ◌+◌, ◌*◌, ◌<◌};
ghost use Rattle.meaning.specs.Words.{words};
ghost use Rattle.meaning.specs.Job.{eq_list};

use wire::word_at;

// Whether the `n` words from `at` on are those from `from` on in another slice.
pub fn same_words(a: &[u8], at: usize, b: &[u8], from: usize, n: usize) -> bool
    requires { (at + 2 * n < 0x1_0000_0000_0000_0000) × (from + 2 * n < 0x1_0000_0000_0000_0000) }
    ensures { result ≡ eq_list (words a.now at n) (words b.now from n) }
{
    for i in 0..n {
        if word_at(a, at + 2 * i) != word_at(b, from + 2 * i) {
            return false;
        }
    }
    true
}
