// The program: reads a label job from standard input, and prints what is kept of its table, or the number of the refusal.
#![tactic(auto)]

ghost use Rattle.std.specs.Prelude.{◌≡◌, ◌≤◌, length, replicate};
ghost use Rattle.meaning.specs.Job.{room};
ghost use Rattle.report_lines.specs.Lengths.{text_room};
ghost use Rattle.label_job.specs.Answered.{Answered};

use answer_numbers::{length_of, number_of};
use input::read_input;
use job::run;
use report::report;
use std::io::Write;

// One byte more than the longest job file has, so that a longer one is seen.
const FILE: usize = 65537;

// The bytes that are lent for the result.
const RESULT: usize = 262144;

// Room for the longest text.
const TEXT: usize = 540700;

// A buffer for the text. Its contract says how long it is, and nothing of what is in it.
fn blank() -> [u8; TEXT]
    ensures { length result ≡ text_room }
{
    [0u8; TEXT]
}

// A buffer for the result. Its contract says that it is the zeros that `program` lends.
fn lent() -> [u8; RESULT]
    ensures { result ≡ replicate room 0 }
{
    [0u8; RESULT]
}

// What the program prints for a file, at the front of `text`; how long it is.
fn answer(file: &[u8], text: &mut [u8]) -> usize
    requires { text_room ≤ length text.old }
    ensures { Answered file.now text.old text.new result }
{
    let mut result = lent();
    let a = run(file, &mut result);
    report(number_of(a), length_of(a), &result, text)
}

// A buffer for the file. Its type says how long it is, and no contract says what is in it.
fn unread() -> [u8; FILE] {
    [0u8; FILE]
}

// Reads the file, and writes the text at once. Where that fails, a sentence on standard error says so; a failed read leaves standard output empty.
fn main(rt: HostRuntime) {
    let mut file = unread();
    let Ok(n) = read_input(&mut rt.stdin(), &mut file) else {
        let _ = eprintln!(rt; "label_job: standard input could not be read");
        return;
    };
    let mut text = blank();
    let k = answer(&file[..n], &mut text);
    if rt.stdout().write_all(&text[..k]).is_err() {
        let _ = eprintln!(rt; "label_job: the answer could not be written");
    }
}
