// Contexts by class: the set that a glyph reaches, and the classes of two contexts, numbered. The class tables are those of backtrack, input and lookahead; in a plain context those of backtrack and lookahead are null.
#![tactic(auto)]

ghost use Rattle.std.specs.Prelude.{◌≡◌, ◌≤◌, ◌<◌, length};
ghost use Rattle.class_stretches.specs.Tables.{NullOrSound};
ghost use Rattle.class_lists.specs.Elsewhere.{Elsewhere};
ghost use Rattle.class_places.specs.Places.{input_at};
ghost use Rattle.class_tables.specs.Contexts.{set_place, SoundTables, TablesNumbered};

use class_numbers::number_classes;
use class_places::{ahead_at, back_at, count_at, input_at};
use class_stretches::class_of;
use wire::word_at;

// Where the set stands that a covered glyph reaches by its class; 0 for none: a null set, a class past the last set, or a null class table.
pub fn set_of(chained: bool, src: &[u8], glyph: usize) -> usize
    requires { NullOrSound src.now (input_at chained src.now) × (glyph < 65536) }
    ensures { (result ≡ set_place chained src.now glyph) × (result < 65536) }
{
    let at = input_at(chained, src);
    if at == 0 {
        return 0;
    }
    let class = class_of(src, at, glyph);
    let count = count_at(chained);
    if word_at(src, count) <= class {
        return 0;
    }
    word_at(src, count + 2 + 2 * class)
}

// The numbers of all classes of two contexts by class, in parts of 65,536 cells from the second on: backtrack left and right, input left and right, lookahead left and right.
pub fn number_tables(chained: bool, left: &[u8], right: &[u8], t: &mut [u32])
    requires { SoundTables chained left.now × SoundTables chained right.now × (458752 ≤ length t.old) }
    ensures { TablesNumbered chained left.now right.now t.new × Elsewhere 65536 458752 t.old t.new }
{
    let back = back_at(chained, left);
    number_classes(left, back, right, back_at(chained, right), t, 65536);
    let input = input_at(chained, left);
    number_classes(left, input, right, input_at(chained, right), t, 196608);
    let ahead = ahead_at(chained, left);
    number_classes(left, ahead, right, ahead_at(chained, right), t, 327680);
}
