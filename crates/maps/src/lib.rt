// Good maps. A lookup map has four bytes an entry, an old word and its new word, the old ones strictly ascending.
// A glyph map has that too, the new ones strictly ascending as well, or six bytes a run: first old word, first new word and count, for that many pairs in step.
#![tactic(auto)]

ghost use Rattle.std.specs.Prelude.{◌≡◌, ◌+◌, ◌<◌};
ghost use Rattle.meaning.specs.Maps.{good_glyphs, good_lookups, good_glyph_map};

use map_runs::good_runs;
use wire::{ascending, word_inside};

// Whether the map has whole entries, and the old numbers ascend strictly.
pub fn good_lookups(m: &[u8]) -> bool
    ensures { result ≡ good_lookups m.now }
{
    if m.len() % 4 != 0 {
        return false;
    }
    ascending(m, 0, m.len() / 4, 4)
}

// Whether the map has whole entries, and both the old numbers and the new ones ascend strictly.
fn good_pairs(m: &[u8]) -> bool
    ensures { result ≡ good_glyphs m.now }
{
    if m.len() % 4 != 0 {
        return false;
    }
    let mut low = 0;
    let mut least = 0;
    for i in 0..m.len() / 4 {
        let old = word_inside(m, 4 * i);
        let new = word_inside(m, 4 * i + 2);
        if old < low {
            return false;
        }
        if new < least {
            return false;
        }
        low = old + 1;
        least = new + 1;
    }
    true
}

// Whether a glyph map is good in the form with this mark: 6 for runs, and pairs for any other.
pub fn good_glyphs(m: &[u8], form: usize) -> bool
    ensures { result ≡ good_glyph_map form m.now }
{
    if form == 6 {
        return good_runs(m);
    }
    good_pairs(m)
}
