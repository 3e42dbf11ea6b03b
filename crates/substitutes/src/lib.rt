// The substitute of a glyph by a single substitution: by a delta, or by a list.
#![tactic(auto)]

ghost use Rattle.std.specs.Prelude.{◌≡◌, ◌<◌, IfSome};
ghost use Rattle.meaning.specs.Tables.{single};
ghost use Rattle.meaning.specs.Matching.{substitute};
ghost use Rattle.substitutes.specs.Substitutes.{SoundCover};

use coverage_index::index_of;
use std::num::wrapping_add_u16;
use wire::word_at;

// The substitute of a glyph: the glyph plus the delta, modulo 65,536, or the one that is listed for its coverage index; none where it is not covered.
pub fn substitute(src: &[u8], glyph: usize) -> Option<usize>
    requires { SoundCover src.now × (glyph < 65536) }
    ensures says { result ≡ substitute (single src.now) glyph }
    ensures small { IfSome result (λ g. g < 65536) }
{
    let cover = word_at(src, 2);
    if cover == 0 {
        return None;
    }
    let Some(i) = index_of(src, cover, glyph) else {
        return None;
    };
    let last = word_at(src, 4);
    if word_at(src, 0) == 1 {
        return Some(wrapping_add_u16(glyph as u16, last as u16) as usize);
    }
    if last <= i {
        return None;
    }
    Some(word_at(src, 6 + 2 * i))
}
