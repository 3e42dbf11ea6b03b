// The program: reads a replay file from standard input, whose last 28 bytes point back to a list, a buffer and a trace, and prints the answer and the tally of the replay; where the trace is empty, also what the list may cost.
#![tactic(auto)]

ghost use Rattle.std.specs.Prelude.{◌≡◌, true, ◌≤◌, ◌<◌, length};
ghost use Rattle.tallies.specs.Counting.{replayed_of};
ghost use Rattle.report_lines.specs.Text.{Put};
ghost use Rattle.replay_job.specs.ReplayFile.{good_file, replay_file, printed, asks_cost, file_steps, cost_text, program};

use file_parts::{ends_by, part_at};
use input::read_input;
use lookup_list::long_at;
use replay::{refusing, replay_all};
use replay_cost::replay_cost;
use report::put_line;
use std::io::Write;
use tallies::Replayed;

// The most bytes of a replay file.
const FILE_LIMIT: usize = 500000;

// One byte more, so that a longer file is seen.
const FILE: usize = 500001;

// The bytes of the trailer: start and length of each part, in four bytes each, then the tag.
const TRAILER: usize = 28;

// The four bytes `LSR1`, as one number.
const TAG: usize = 0x4C53_5231;

// Room for the longest text.
const TEXT: usize = 192;

// Whether the file is a replay file: of 28 bytes to the limit, it ends in the tag, and its three parts lie wholly before the trailer.
fn good_file(file: &[u8]) -> bool
    ensures { result ≡ good_file file.now }
{
    if file.len() < TRAILER {
        return false;
    }
    if FILE_LIMIT < file.len() {
        return false;
    }
    let at = file.len() - TRAILER;
    if long_at(file, at + 24) != TAG {
        return false;
    }
    if !ends_by(file, at, at) {
        return false;
    }
    if !ends_by(file, at + 8, at) {
        return false;
    }
    ends_by(file, at + 16, at)
}

// The replay of a file, or that it is faulty, which is tested first.
fn replay_file(file: &[u8]) -> Replayed
    ensures { replayed_of result ≡ replay_file file.now }
{
    if !good_file(file) {
        return refusing(11, 0);
    }
    let at = file.len() - TRAILER;
    replay_all(
        part_at(file, at),
        part_at(file, at + 8),
        part_at(file, at + 16),
    )
}

// What is printed of a replay, at the front of `text`; how long it is.
fn put_answer(text: &mut [u8], r: Replayed) -> usize
    ensures { Put text.old 0 (printed (replayed_of r)) text.new result }
{
    let a = put_line(text, 0, b"answer ", r.number);
    let b = put_line(text, a, b"place ", r.place);
    let c = put_line(text, b, b"runs ", r.tally.runs);
    let d = put_line(text, c, b"agreed ", r.tally.agreements);
    put_line(text, d, b"first ", r.tally.first)
}

// Whether a file is a replay file with an empty trace, which asks for the cost.
fn asks_cost(file: &[u8]) -> bool
    ensures { result ≡ asks_cost file.now }
{
    if !good_file(file) {
        return false;
    }
    long_at(file, file.len() - TRAILER + 20) == 0
}

// The steps that a file's list may take.
fn file_steps(file: &[u8]) -> usize
    requires { good_file file.now ≡ true }
    ensures { result ≡ file_steps file.now }
{
    let at = file.len() - TRAILER;
    let c = replay_cost(part_at(file, at), part_at(file, at + 8));
    c.steps
}

// The line with the cost from `at` on, where the file asks for it; the place after it.
fn put_cost(text: &mut [u8], at: usize, file: &[u8]) -> usize
    requires { at < 0x1_0000 }
    ensures { Put text.old at (cost_text file.now) text.new result }
{
    if !asks_cost(file) {
        return at;
    }
    put_line(text, at, b"steps ", file_steps(file))
}

// What the program prints for a file, at the front of `text`; how long it is.
fn answer(file: &[u8], text: &mut [u8]) -> usize
    requires { 192 ≤ length text.old }
    ensures { Put text.old 0 (program file.now) text.new result × (result ≤ length text.new) }
{
    let at = put_answer(text, replay_file(file));
    put_cost(text, at, file)
}

// A buffer for the file. Its type says how long it is, and no contract says what is in it.
fn unread() -> [u8; FILE] {
    [0u8; FILE]
}

// Reads the file, and writes the text at once. Where that fails, a sentence on standard error says so; a failed read leaves standard output empty.
fn main(rt: HostRuntime) {
    let mut file = unread();
    let Ok(n) = read_input(&mut rt.stdin(), &mut file) else {
        let _ = eprintln!(rt; "replay_job: standard input could not be read");
        return;
    };
    let mut text = [0u8; TEXT];
    let k = answer(&file[..n], &mut text);
    if rt.stdout().write_all(&text[..k]).is_err() {
        let _ = eprintln!(rt; "replay_job: the answer could not be written");
    }
}
