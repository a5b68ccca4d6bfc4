// The text, as standard input brings it.
ghost use Rattle.std.specs.Prelude.{◌≤◌, length, IfOk, IfErr};

use crate::saying::say_failure;
use description::MAX_TEXT_BYTES;
use std::io;
use std::io::{ErrorKind, Read};

// A byte more than a text may have: a program that reads so many refuses a longer input, however much comes.
pub const INPUT_BYTES: usize = MAX_TEXT_BYTES + 1;

// Reads on after a short read, until the input ends or the buffer is full, and gives how many bytes there are. Where a read fails it says so,
// and the error is how many bytes came before: a text that was read in part is no text. `name` is the failure's: the program and `standard input`.
pub fn read_input(
    reader: &mut impl Read,
    notes: &impl Print,
    name: &str,
    buffer: &mut [u8],
) -> Result<usize, usize>
    ensures whole { IfOk result (λ taken. taken ≤ length buffer.new) }
    ensures part { IfErr result (λ taken. taken ≤ length buffer.new) }
{
    let mut taken = 0;
    while taken < buffer.len() {
        match read_some(reader, &mut buffer[taken..]) {
            Ok(0) => break,
            Ok(more) => taken += more,
            Err(error) => {
                say_failure(notes, name, error);
                return Err(taken);
            }
        }
    }
    Ok(taken)
}

// One read, made again where a signal came before a byte did. A proved loop has to end, so the tries are counted, to a number that no run
// uses up.
fn read_some(reader: &mut impl Read, buffer: &mut [u8]) -> io::Result<usize>
    ensures { IfOk result (λ taken. taken ≤ length buffer.new) }
{
    for _ in 0..u64::MAX {
        match reader.read(buffer) {
            Err(error) if error.kind() == ErrorKind::Interrupted => {}
            got => return got,
        }
    }
    reader.read(buffer)
}
