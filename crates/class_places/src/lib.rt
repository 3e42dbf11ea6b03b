// Where the parts of a context by class stand in its source: its class tables, those of backtrack, input and lookahead, and the count and the offsets of its sets.
#![tactic(auto)]

ghost use Rattle.std.specs.Prelude.{◌≡◌, ◌<◌};
ghost use Rattle.class_places.specs.Places.{back_at, input_at, ahead_at, count_at, slots_at};

use wire::word_at;

// Where the class table of the backtrack stands; 0 if it is null, and in a plain context, which has none.
pub fn back_at(chained: bool, src: &[u8]) -> usize
    ensures { result ≡ back_at chained src.now }
{
    if chained { word_at(src, 4) } else { 0 }
}

// Where the class table of the input stands; 0 if it is null.
pub fn input_at(chained: bool, src: &[u8]) -> usize
    ensures { result ≡ input_at chained src.now }
{
    word_at(src, if chained { 6 } else { 4 })
}

// Where the class table of the lookahead stands; 0 if it is null, and in a plain context, which has none.
pub fn ahead_at(chained: bool, src: &[u8]) -> usize
    ensures { result ≡ ahead_at chained src.now }
{
    if chained { word_at(src, 8) } else { 0 }
}

// Where the count of the sets stands: after the format and the offsets of the coverage and of one class table or three.
pub fn count_at(chained: bool) -> usize
    ensures { (result ≡ count_at chained) × (result < 11) }
{
    if chained { 10 } else { 6 }
}

// Where the offsets of the sets stand, in the source and in the small table: after their count.
pub fn slots_at(chained: bool) -> usize
    ensures { result ≡ slots_at chained }
{
    count_at(chained) + 2
}
