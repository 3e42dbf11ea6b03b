// What the program prints of an answer, as bytes in a lent buffer. Each function writes where there is room, and answers the place after what it writes.
#![tactic(auto)]

ghost use Rattle.std.specs.Prelude.{◌≡◌, ◌+◌, ◌/◌, ◌%◌, ◌≤◌, ◌<◌, length};
ghost use Rattle.meaning.specs.Job.{decimal, printed};
ghost use Rattle.report_lines.specs.Text.{Put, Spelled, Printable, line_text, kept_text};

use report_lines::{NEWLINE, put_lines, put_one};

// The bytes of `s` from `at` on.
fn put_text(text: &mut [u8], at: usize, s: &[u8]) -> usize
    requires { at + length s.now < 0x1_0000_0000_0000 }
    ensures { Put text.old at s.now text.new result }
{
    let mut p = at;
    for b in s {
        p = put_one(text, p, *b as usize);
    }
    p
}

// The decimal digits of `n` at the end of `small`, which has room for those of any number; the place of the first.
fn spell(n: usize, small: &mut [u8]) -> usize
    requires { length small.old ≡ 20 }
    ensures { Spelled n small.new result }
{
    let mut at = 20;
    let mut left = n;
    // A while: each step takes off a digit.
    while 10 <= left {
        at -= 1;
        small[at] = (48 + left % 10) as u8;
        left /= 10;
    }
    at -= 1;
    small[at] = (48 + left) as u8;
    at
}

// The number in decimal, from `at` on.
fn put_decimal(text: &mut [u8], at: usize, n: usize) -> usize
    requires { at < 0x1_0000_0000 }
    ensures { Put text.old at (decimal n) text.new result }
{
    let mut small = [0u8; 20];
    let first = spell(n, &mut small);
    put_text(text, at, &small[first..])
}

// What is printed of the bytes that are kept.
fn put_kept(text: &mut [u8], bytes: &[u8]) -> usize
    requires { length bytes.now ≤ 262144 }
    ensures { Put text.old 0 (kept_text bytes.now) text.new result }
{
    let p = put_text(text, 0, b"kept ");
    let q = put_decimal(text, p, bytes.len());
    let r = put_one(text, q, NEWLINE);
    put_lines(text, r, bytes)
}

// A line of a word and a number, from `at` on; the place after its newline.
pub fn put_line(text: &mut [u8], at: usize, word: &[u8], n: usize) -> usize
    requires { at + length word.now < 0x1_0000_0000 }
    ensures { Put text.old at (line_text word.now n) text.new result }
{
    let p = put_text(text, at, word);
    let q = put_decimal(text, p, n);
    put_one(text, q, NEWLINE)
}

// What the program prints of an answer's number and length, with the buffer as it was left. It stands at the front of `text`; the answer is how long it is.
pub fn report(number: usize, len: usize, bytes: &[u8], text: &mut [u8]) -> usize
    requires { Printable number len bytes.now }
    ensures { Put text.old 0 (printed (record { number = number; len = len; out = bytes.now })) text.new result }
{
    if number == 0 {
        return put_kept(text, &bytes[..len]);
    }
    put_line(text, 0, b"refused ", number)
}
