// The input of the programs that run cases: case after case, each a head of some bytes and then a table. The last two bytes of a head are
// the table's length, the lower first.
#![tactic(auto)]

ghost use Rattle.std.specs.Prelude.{◌≤◌, length, IfOk};

use std::io;
use std::io::{ErrorKind, Read};

// Reads until the buffer is full or the input ends, and gives how many bytes there are.
pub fn read_full(reader: &mut impl Read, buffer: &mut [u8]) -> io::Result<usize>
    ensures { IfOk result (λ end. end ≤ length buffer.new) }
{
    let mut end = 0;
    for _ in 0..u64::MAX {
        if end == buffer.len() {
            break;
        }
        match reader.read(&mut buffer[end..]) {
            Ok(0) => break,
            Ok(more) => end += more,
            Err(error) => {
                if error.kind() != ErrorKind::Interrupted {
                    return Err(error);
                }
            }
        }
    }
    Ok(end)
}

// Where the case that starts at `at` ends, or `at` where no whole case is left.
pub fn case_end(cases: &[u8], at: usize, head: usize) -> usize
    requires { (at ≤ length cases.now) × (2 ≤ head) × (head ≤ 16) }
    ensures { (at ≤ result) × (result ≤ length cases.now) }
{
    if cases.len() - at < head {
        return at;
    }
    let start = at + head;
    let length = usize::from(u16::from_le_bytes([cases[start - 2], cases[start - 1]]));
    if cases.len() - start < length {
        return at;
    }
    start + length
}
