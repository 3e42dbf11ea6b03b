// The header of a pair table by class, with its cells, checked: where neither class table is null, classes are below their counts.
#![tactic(auto)]

ghost use Rattle.std.specs.Prelude.{◌≡◌, ◌&&◌, ◌*◌, ◌<◌};
ghost use Rattle.meaning.specs.Fault.{good_formats};
ghost use Rattle.covered_between.specs.Header.{good_header};

use classes_below::classes_below;
use pair_pos::pair_size;
use view::header;
use wire::inside;

// Whether the bits 0xFF00 of both value formats are zero.
pub fn good_formats(src: &[u8]) -> bool
    ensures { result ≡ good_formats src.now }
{
    if 256 <= header(src, 4) {
        return false;
    }
    header(src, 6) < 256
}

// Whether the header lies inside, with its cells, value formats have no bit of 0xFF00, and classes are below their counts.
pub fn good_header(src: &[u8]) -> bool
    ensures { result ≡ good_header src.now }
{
    if !inside(src, 0, 16) {
        return false;
    }
    let size = pair_size(header(src, 4), header(src, 6)) - 2;
    if !inside(src, 16, size * (header(src, 12) * header(src, 14))) {
        return false;
    }
    good_formats(src) && classes_below(src)
}
