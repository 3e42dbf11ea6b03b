// Compare files: two subtables anywhere, and a trailer that says their kind and points back to them. And the text that is printed for one.
#![tactic(auto)]

ghost use Rattle.std.specs.Prelude.{◌≡◌, true, ◌≤◌, ◌<◌, length};
ghost use Rattle.meaning.specs.Job.{bytes_of};
ghost use Rattle.report_lines.specs.Text.{Put};
ghost use Rattle.compare_file.specs.CompareFile.{good_file, kind_in, left_part, right_part, printed};

use file_parts::{ends_by, part_at};
use lookup_list::long_at;
use report::put_line;
use report_lines::put_lines;
use wire::word_at;

// The most bytes of a compare file.
pub const FILE_LIMIT: usize = 600000;

// The bytes of the trailer: the kind in two bytes, start and length of each subtable in four bytes each, then the tag.
const TRAILER: usize = 22;

// The four bytes `LSC1`, as one number.
const TAG: usize = 0x4C53_4331;

// Whether the file is a compare file: of 22 bytes to the limit, it ends in the tag, and both subtables lie wholly before the trailer.
pub fn good_file(file: &[u8]) -> bool
    ensures { result ≡ good_file file.now }
{
    if file.len() < TRAILER {
        return false;
    }
    if FILE_LIMIT < file.len() {
        return false;
    }
    let at = file.len() - TRAILER;
    if long_at(file, at + 18) != TAG {
        return false;
    }
    if !ends_by(file, at + 2, at) {
        return false;
    }
    ends_by(file, at + 10, at)
}

// The kind that a compare file says.
pub fn kind_of(file: &[u8]) -> usize
    requires { good_file file.now ≡ true }
    ensures { (result ≡ kind_in file.now) × (result < 65536) }
{
    word_at(file, file.len() - TRAILER)
}

// The left subtable.
pub fn left_of(file: &[u8]) -> &[u8]
    requires { good_file file.now ≡ true }
    ensures { result.now ≡ bytes_of file.now (left_part file.now) }
{
    part_at(file, file.len() - TRAILER + 2)
}

// The right subtable.
pub fn right_of(file: &[u8]) -> &[u8]
    requires { good_file file.now ≡ true }
    ensures { result.now ≡ bytes_of file.now (right_part file.now) }
{
    part_at(file, file.len() - TRAILER + 10)
}

// What is printed of an answer, at the front of `text`: a line with its number, one with its length, and with 0 the list in hex, 16 bytes a line; how long it is.
pub fn put_answer(text: &mut [u8], number: usize, len: usize, list: &[u8]) -> usize
    requires { length list.now ≤ 262144 }
    ensures { Put text.old 0 (printed number len list.now) text.new result }
{
    let p = put_line(text, 0, b"answer ", number);
    let q = put_line(text, p, b"length ", len);
    if number != 0 {
        return q;
    }
    put_lines(text, q, list)
}
