// A reader, such as standard input, read to its end into a lent buffer.
#![tactic(auto)]

ghost use Rattle.std.specs.Prelude.{◌≤◌, ◌<◌, length, take, IfOk};
ghost use Rattle.std.specs.Io.KnownBytes.{Consumes, IsAtEnd};

use std::io;
use std::io::Read;

// Reads to the end, or until `file` is full; how many bytes stand at the front of the buffer. Where a read fails, no more is read.
// Of a reader whose bytes are known, these are the next of them, in their order, and none is left where the buffer was not filled.
pub fn read_input<R: Read>(from: &mut R, file: &mut [u8]) -> io::Result<usize>
    ensures within { IfOk result (λ n. n ≤ length file.new) }
    ensures given { IfOk result (λ n. Consumes (R.remaining from.old) (R.remaining from.new) (take n file.new)) }
    ensures end { IfOk result (λ n. n < length file.new → IsAtEnd (R.remaining from.new)) }
{
    let mut n = 0;
    // Each read says how many bytes came.
    while n < file.len() {
        let more = from.read(&mut file[n..])?;
        if more == 0 {
            return Ok(n);
        }
        n += more;
    }
    Ok(n)
}
