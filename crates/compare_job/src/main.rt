// The program: reads a compare file from standard input, whose last 22 bytes say a kind and point back to two subtables of it, and prints the answer of the comparison and, where there is one, the list.
#![tactic(auto)]

ghost use Rattle.std.specs.Prelude.{◌≡◌, ◌≤◌, length, replicate};
ghost use Rattle.report_lines.specs.Text.{Put, Printable};
ghost use Rattle.compare_job.specs.Program.{compare_file, said, outcome_of, program, room, text_room};

use compare::{compare, length_of, number_of};
use compare_file::{good_file, kind_of, left_of, put_answer, right_of};
use input::read_input;
use std::io::Write;

// One byte more than the longest compare file has, so that a longer one is seen.
const FILE: usize = 600001;

// The bytes that are lent for the list.
const LIST: usize = 262144;

// Room for the longest text.
const TEXT: usize = 540800;

// What is answered besides the list: a number, and the length that comes with it.
#[derive(Clone, Copy)]
pub struct Answered {
    number: usize,
    len: usize,
}

// The comparison of a file's subtables, or that the file is faulty, which is tested first.
fn compare_parts(file: &[u8], list: &mut [u8]) -> Answered
    ensures { outcome_of result list.new ≡ compare_file file.now list.old }
{
    if !good_file(file) {
        return Answered { number: 11, len: 0 };
    }
    let a = compare(kind_of(file), left_of(file), right_of(file), list);
    Answered {
        number: number_of(a),
        len: length_of(a),
    }
}

// What is printed of an answer with the buffer as it was left, at the front of `text`; how long it is.
fn put_outcome(text: &mut [u8], number: usize, len: usize, list: &[u8]) -> usize
    requires { Printable number len list.now }
    ensures { Put text.old 0 (said (record { number = number; len = len; out = list.now })) text.new result }
{
    if number != 0 {
        return put_answer(text, number, len, b"");
    }
    put_answer(text, number, len, &list[..len])
}

// A buffer for the text. Its contract says how long it is, and nothing of what is in it.
fn blank() -> [u8; TEXT]
    ensures { length result ≡ text_room }
{
    [0u8; TEXT]
}

// A buffer for the list. Its contract says that it is the zeros that `program` lends.
fn lent() -> [u8; LIST]
    ensures { result ≡ replicate room 0 }
{
    [0u8; LIST]
}

// What the program prints for a file, at the front of `text`; how long it is.
fn answer(file: &[u8], text: &mut [u8]) -> usize
    requires { text_room ≤ length text.old }
    ensures { Put text.old 0 (program file.now) text.new result × (result ≤ length text.new) }
{
    let mut list = lent();
    let a = compare_parts(file, &mut list);
    put_outcome(text, a.number, a.len, &list)
}

// Reads the file, and writes the text at once. Where that fails, a sentence on standard error says so; a failed read leaves standard output empty.
fn main(rt: HostRuntime) {
    let mut file = [0u8; FILE];
    let Ok(n) = read_input(&mut rt.stdin(), &mut file) else {
        let _ = eprintln!(rt; "compare_job: standard input could not be read");
        return;
    };
    let mut text = blank();
    let k = answer(&file[..n], &mut text);
    if rt.stdout().write_all(&text[..k]).is_err() {
        let _ = eprintln!(rt; "compare_job: the answer could not be written");
    }
}
