// Numbers for all rules of two subtables. `num` has a cell for each code, and `came` is as rule_numbers has it.
#![tactic(auto)]

ghost use Rattle.std.specs.Prelude.{◌≤◌, ◌<◌, length};
ghost use Rattle.rule_rows.specs.Rows.{side_of};
ghost use Rattle.rule_says.specs.Said.{says_by, print_says};
ghost use Rattle.rule_numbers.specs.Book.{Book};
ghost use Rattle.set_numbers.specs.Sets.{Near, codes_of, SetNumbered, SideNumbered, Cells, Told};

use cells::clear;
use rule_numbers::number;
use rule_rows::word_of;
use rule_says::Shape;

// The cells of `came` that are blank before the first number.
const PRINTS_AND_COUNT: usize = 65537;

// Where a set stands: in the left subtable (0) or in the right one (1), at `at`; a null one stands at 0.
#[derive(Clone, Copy)]
pub struct Set {
    pub side: usize,
    pub at: usize,
}

// A number for each rule of a set; null offsets are passed over.
fn number_set(
    shape: Shape,
    left: &[u8],
    right: &[u8],
    t: &[u32],
    num: &mut [u32],
    came: &mut [u32],
    set: Set,
)
    requires { Near set.side set.at (length num.old) × Book (says_by shape left.now right.now t.now) print_says num.old came.old }
    ensures { SetNumbered (says_by shape left.now right.now t.now) print_says (codes_of (side_of set.side left.now right.now) set.side set.at) num.old num.new came.new }
{
    if set.at == 0 {
        return;
    }
    let n = word_of(left, right, set.side, set.at);
    for i in 0..n {
        let offset = word_of(left, right, set.side, set.at + 2 + 2 * i);
        if offset == 0 {
            continue;
        }
        number(
            shape,
            left,
            right,
            t,
            num,
            came,
            2 * (set.at + offset) + set.side,
        );
    }
}

// A number for each rule of one side (0 left, 1 right), whose sets' offsets stand from `slots.at` on after their count. A set that stands in several slots in a row is walked once.
fn number_side(
    shape: Shape,
    left: &[u8],
    right: &[u8],
    t: &[u32],
    num: &mut [u32],
    came: &mut [u32],
    slots: Set,
)
    requires { (2 ≤ slots.at) × Near slots.side slots.at (length num.old) × Book (says_by shape left.now right.now t.now) print_says num.old came.old }
    ensures { SideNumbered (says_by shape left.now right.now t.now) print_says (side_of slots.side left.now right.now) slots.side slots.at num.old num.new came.new }
{
    let n = word_of(left, right, slots.side, slots.at - 2);
    let mut last = 0;
    for i in 0..n {
        let at = word_of(left, right, slots.side, slots.at + 2 * i);
        if at == last {
            continue;
        }
        let set = Set {
            side: slots.side,
            at,
        };
        number_set(shape, left, right, t, num, came, set);
        last = at;
    }
}

// Numbers for all rules of both sides, equal exactly if the rules say the same. The sets' offsets stand from `first` on after their count. What stands in `num` and `came` before does not matter.
pub fn number_all(
    shape: Shape,
    left: &[u8],
    right: &[u8],
    t: &[u32],
    first: usize,
    num: &mut [u32],
    came: &mut [u32],
)
    requires { (2 ≤ first) × (first < 65536) × Cells (length num.old) (length came.old) }
    ensures { Told (says_by shape left.now right.now t.now) left.now right.now first num.new }
{
    let n = num.len();
    clear(num, n);
    clear(came, PRINTS_AND_COUNT);
    let lefts = Set { side: 0, at: first };
    number_side(shape, left, right, t, num, came, lefts);
    let rights = Set { side: 1, at: first };
    number_side(shape, left, right, t, num, came, rights);
}
