// What is read of the input.
ghost use Rattle.std.specs.Prelude.{◌≤◌, length, IfOk};

use std::io;
use std::io::Read;

// One byte more than the longest book has, so that an input that is longer still is seen to be too long.
pub(crate) const LONGEST: usize = 16385;

// Reads until the buffer is full or the input is at its end, and tells how many bytes were read. By hand: what std's
// `take` and `read_to_end` promise does not bound the bytes of a reader of which nothing is known.
pub(crate) fn read_front<R: Read>(input: &mut R, buffer: &mut [u8]) -> io::Result<usize>
    ensures bound { IfOk result (λ n. n ≤ length buffer.new) }
{
    let mut filled = 0;
    while filled < buffer.len() {
        let count = input.read(&mut buffer[filled..])?;
        if count == 0 {
            break;
        }
        filled += count;
    }
    Ok(filled)
}
