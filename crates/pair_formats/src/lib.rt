// The new value formats of a pair table: a field stays if some surviving pair of the sets that notes name has it nonzero.
#![tactic(auto)]

ghost use Rattle.std.specs.Prelude.{◌≡◌, ◌+◌, ◌*◌};
ghost use Rattle.meaning.specs.Cut.{stand_in};
ghost use Rattle.area.specs.Part.{notes};
ghost use Rattle.numbers.specs.Entries.{entries_in};
ghost use Rattle.field_uses.specs.New.{AsksFormats, NewFormats};

use cell_maps::Map;
use field_uses::new_format;
use pair_places::field_count;
use pair_sets::Formats;
use wire::word_inside;

// The new value format of second glyphs, where `new` has those fields of the format `f` that stay: if none stays and `f` is not 0, 0x0004 stands in, for shapers skip the second glyph of a pair exactly if the second format is not 0.
pub fn stand_in(f: usize, new: usize) -> usize
    ensures { result ≡ stand_in f new }
{
    if f == 0 {
        return new;
    }
    if new == 0 {
        return 0x0004;
    }
    new
}

// The value formats of a pair table, and the new ones that the sets ask for that the `n` notes from `at` on name; the second one is not 0 if the source's is not.
pub fn new_formats(src: &[u8], t: &[u32], at: usize, n: usize, glyphs: Map) -> Formats
    requires { AsksFormats src.now t.now glyphs at n }
    ensures { NewFormats (entries_in t.now glyphs) src.now (notes t.now at n) result }
{
    let f1 = word_inside(src, 4);
    let f2 = word_inside(src, 6);
    let second = 2 + 2 * field_count(f1);
    let size = second + 2 * field_count(f2);
    let n1 = new_format(src, size, 2, f1, t, at, n, glyphs);
    let n2 = stand_in(f2, new_format(src, size, second, f2, t, at, n, glyphs));
    Formats {
        f1,
        f2,
        n1,
        n2,
        size,
    }
}
