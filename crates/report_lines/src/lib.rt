// Bytes in hex, 16 a line, written into a lent buffer.
#![tactic(auto)]

ghost use Rattle.std.specs.Prelude.{[], ◌∷◌, ◌≡◌, ◌+◌, ◌/◌, ◌%◌, ◌≤◌, ◌<◌, length};
ghost use Rattle.meaning.specs.Job.{hex_digit, hex_lines};
ghost use Rattle.report_lines.specs.Text.{Put};

use put_words::put_byte;

// Ends a line.
pub const NEWLINE: usize = 10;

// The byte `b` at `at`.
pub fn put_one(text: &mut [u8], at: usize, b: usize) -> usize
    requires { (at < 0x1_0000_0000_0000) × (b < 256) }
    ensures { Put text.old at (b ∷ []) text.new result }
{
    put_byte(text, at, b);
    at + 1
}

// A number below 16 as a digit, in lower case.
fn hex_digit(d: usize) -> usize
    requires { d < 16 }
    ensures { (result ≡ hex_digit d) × (result < 256) }
{
    if d < 10 {
        return 48 + d;
    }
    87 + d
}

// A byte as two digits, from `at` on.
fn put_hex(text: &mut [u8], at: usize, b: usize) -> usize
    requires { (at < 0x1_0000_0000) × (b < 256) }
    ensures { Put text.old at (hex_digit (b / 16) ∷ hex_digit (b % 16) ∷ []) text.new result }
{
    let p = put_one(text, at, hex_digit(b / 16));
    put_one(text, p, hex_digit(b % 16))
}

// The bytes in hex from `at` on, 16 a line; `room` is how many more the line takes. Each line ends in a newline, the last one too.
pub fn put_lines(text: &mut [u8], at: usize, bytes: &[u8]) -> usize
    requires { (at < 65536) × (length bytes.now ≤ 262144) }
    ensures { Put text.old at (hex_lines 16 bytes.now) text.new result }
{
    let mut p = at;
    let mut room: usize = 16;
    for b in bytes {
        if room == 0 {
            p = put_one(text, p, NEWLINE);
            room = 16;
        }
        p = put_hex(text, p, *b as usize);
        room -= 1;
    }
    put_one(text, p, NEWLINE)
}
