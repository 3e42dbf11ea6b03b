// Numbers of rules: equal exactly if the rules say the same. `num` has a cell for each code: its number, or 0 while it has none.
// `came` has, for each print, the latest number of a rule with this print; then how many numbers there are; then for each number the code that came first with it, and the number before it with the same print.
#![tactic(auto)]

ghost use Rattle.std.specs.Prelude.{◌≡◌, ◌+◌, ◌*◌, ◌≤◌, ◌<◌, length, get_or, set, IfSome};
ghost use Rattle.rule_says.specs.Said.{says_by, print_says};
ghost use Rattle.rule_numbers.specs.Book.{count, Added, Firsts, Sought, Book, Numbered};

use cells::{cell, put_cell};
use rule_says::{Shape, print, same};

// The number whose first code says what `code` says, if there is one, from the number `latest` on back.
fn seek(
    shape: Shape,
    left: &[u8],
    right: &[u8],
    t: &[u32],
    came: &[u32],
    latest: usize,
    code: usize,
) -> Option<usize>
    requires { (code < 0x1_0000_0000) × (latest < 0x1_0000_0000) × (print_says (says_by shape left.now right.now t.now code) < 65536) × (latest ≡ get_or came.now (print_says (says_by shape left.now right.now t.now code)) 0) × Firsts (says_by shape left.now right.now t.now) print_says came.now }
    ensures sought { Sought (says_by shape left.now right.now t.now) came.now code result }
    ensures small { IfSome result (λ k. k < 0x1_0000_0000) }
{
    let mut k = latest;
    // A while: it follows links.
    while k != 0 {
        if same(shape, left, right, t, cell(came, 65536 + 2 * k), code) {
            return Some(k);
        }
        k = cell(came, 65537 + 2 * k);
    }
    None
}

// The next number for `code`, which came first with what it says and has the print `p`.
fn add(num: &mut [u32], came: &mut [u32], code: usize, p: usize) -> usize
    requires { (65538 + 2 * (count came.old + 1) ≤ length came.old) × (count came.old + 1 < 0x1_0000_0000) × (p < 65536) × (code < 0x1_0000_0000) }
    ensures { (result ≡ count came.old + 1) × Added came.old came.new code p × (num.new ≡ set num.old code result) }
{
    let k = cell(came, 65536) + 1;
    let old = cell(came, p);
    put_cell(came, 65536, k);
    put_cell(came, 65536 + 2 * k, code);
    put_cell(came, 65537 + 2 * k, old);
    put_cell(came, p, k);
    put_cell(num, code, k);
    k
}

// The number of a rule. It is given once; rules that say the same have the same.
pub fn number(
    shape: Shape,
    left: &[u8],
    right: &[u8],
    t: &[u32],
    num: &mut [u32],
    came: &mut [u32],
    code: usize,
) -> usize
    requires { (code < length num.old) × Book (says_by shape left.now right.now t.now) print_says num.old came.old }
    ensures { Numbered (says_by shape left.now right.now t.now) print_says num.old code num.new came.new result }
{
    let k = cell(num, code);
    if k != 0 {
        return k;
    }
    let p = print(shape, left, right, t, code);
    if let Some(r) = seek(shape, left, right, t, came, cell(came, p), code) {
        put_cell(num, code, r);
        return r;
    }
    add(num, came, code, p)
}
