// A lookup of a list, asked at a place of a string.
#![tactic(auto)]

ghost use Rattle.std.specs.Prelude.{◌≡◌, ◌/◌, ◌<◌, length};
ghost use Rattle.meaning.specs.Words.{word, words};
ghost use Rattle.meaning.specs.Tables.{table};
ghost use Rattle.replaying.specs.Asking.{ask};
ghost use Rattle.replaying.specs.Listed.{lookups_of};
ghost use Rattle.replaying.specs.Applying.{lookup_at};
ghost use Rattle.lookup_list.specs.Ready.{Lookup, Ready, source_at};
ghost use Rattle.asking.specs.Asks.{Asks, InList};

use lookup_list::{long_at, part};
use matching::{Matched, match_context};
use substitutes::substitute;
use wire::word_at;

// What a lookup answers at a place: nothing, a glyph that stands there from now on, or the rule that matches.
#[derive(Clone, Copy)]
pub enum Asked {
    Nothing,
    Instead(usize),
    Rule(Matched),
}

// What a lookup of this kind answers at a place of a string.
fn ask_source(kind: usize, src: &[u8], string: &[u8], n: usize, place: usize) -> Asked
    requires { Lookup kind src.now × (place < n) × (n < 0x1_0000_0000) }
    ensures { Asks src.now place n (ask (table kind src.now) (words string.now 0 n) place) result }
{
    if kind == 5 {
        let Some(glyph) = substitute(src, word_at(string, 2 * place)) else {
            return Asked::Nothing;
        };
        return Asked::Instead(glyph);
    }
    let Some(rule) = match_context(kind == 2, src, string, n, place) else {
        return Asked::Nothing;
    };
    Asked::Rule(rule)
}

// The same of a lookup of the list; past the list, and past the string's end, nothing.
pub fn ask_at(
    list: &[u8],
    buffer: &[u8],
    string: &[u8],
    n: usize,
    lookup: usize,
    place: usize,
) -> Asked
    requires { Ready list.now buffer.now × (n < 0x1_0000_0000) }
    ensures { Asks (source_at list.now buffer.now lookup) place n (ask (lookup_at (lookups_of list.now buffer.now) lookup) (words string.now 0 n) place) result × InList lookup (length list.now / 10) result }
{
    if list.len() / 10 <= lookup {
        return Asked::Nothing;
    }
    if n <= place {
        return Asked::Nothing;
    }
    let src = part(
        buffer,
        long_at(list, 10 * lookup + 2),
        long_at(list, 10 * lookup + 6),
    );
    ask_source(word_at(list, 10 * lookup), src, string, n, place)
}

// The word at `at` in the bytes of a lookup of the list.
pub fn source_word(list: &[u8], buffer: &[u8], lookup: usize, at: usize) -> usize
    requires { Ready list.now buffer.now × (lookup < length list.now / 10) }
    ensures { (result ≡ word (source_at list.now buffer.now lookup) at) × (result < 65536) }
{
    let src = part(
        buffer,
        long_at(list, 10 * lookup + 2),
        long_at(list, 10 * lookup + 6),
    );
    word_at(src, at)
}
