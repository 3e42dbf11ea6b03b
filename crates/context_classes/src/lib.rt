// All class tables of a context by class: their class maps in cells, one behind the other, and what the writing goes by.
#![tactic(auto)]

ghost use Rattle.std.specs.Prelude.{◌≡◌};
ghost use Rattle.context_classes.specs.Cutting.{prepared_of, Begins, ClassesLaid};

use cell_maps::Map;
use class_finish::Prepared;
use class_places::{ahead_at, back_at, input_at};
use class_sides::{Input, class_input, class_side, mark_cells, no_input};
use kept_rules::Maps;
use marks::Marks;
use remade_classes::{Noted, OldTable, Tail};
use wire::word_at;

// What a cut goes by once the covered glyphs are noted in cells: whether the context is chained, the marks of the call, and the notes.
#[derive(Clone, Copy)]
pub struct Begun {
    pub chained: bool,
    pub marks: Marks,
    pub cover: Noted,
}

// The class maps of all class tables.
#[derive(Clone, Copy)]
pub struct Classed {
    pub input: Input,
    pub back: Map,
    pub ahead: Map,
}

// What is answered where there are too few cells for the class tables.
fn no_classes() -> Classed
    ensures { result.input.map.mask ≡ 0 }
{
    let none = Map { at: 0, mask: 0 };
    Classed {
        input: no_input(),
        back: none,
        ahead: none,
    }
}

// The class maps of all class tables, in cells behind the notes of the covered glyphs. The mask of the input's is 0 where there are too few cells.
pub fn lay_classes(begun: Begun, src: &[u8], glyphs: &[u8], t: &mut [u32]) -> Classed
    requires { Begins src.now glyphs.now begun t.old }
    ensures { ClassesLaid src.now glyphs.now begun t.old t.new result }
{
    let chained = begun.chained;
    let form = begun.marks.form;
    let noted = begun.cover;
    let input = class_input(src, input_at(chained, src), form, glyphs, noted, t);
    if input.map.mask == 0 {
        return no_classes();
    }
    let past = input.marks + mark_cells(input.map);
    let side = class_side(src, back_at(chained, src), form, glyphs, t, noted.at, past);
    let back = side.classes.map;
    if back.mask == 0 {
        return no_classes();
    }
    let last = back.at + back.mask + 1;
    let side = class_side(src, ahead_at(chained, src), form, glyphs, t, noted.at, last);
    let ahead = side.classes.map;
    if ahead.mask == 0 {
        return no_classes();
    }
    Classed { input, back, ahead }
}

// All that the cut needs, from its parts.
pub fn prepare(begun: Begun, src: &[u8], classed: Classed, lookups: Map) -> Prepared
    ensures { result ≡ prepared_of begun src.now classed lookups }
{
    let chained = begun.chained;
    let cover = begun.cover;
    let input = classed.input.map;
    let back = classed.back;
    let ahead = classed.ahead;
    Prepared {
        maps: Maps {
            back,
            input,
            ahead,
            lookups,
        },
        marks: classed.input.marks,
        classes: classed.input.classes,
        tail: Tail {
            chained,
            form: begun.marks.form,
            cover,
            back: OldTable {
                at: back_at(chained, src),
                map: back,
            },
            input: OldTable {
                at: input_at(chained, src),
                map: input,
            },
            ahead: OldTable {
                at: ahead_at(chained, src),
                map: ahead,
            },
        },
        packing: begun.marks.layout,
    }
}
