// Reading a stream.
ghost use Rattle.std.specs.Prelude.{◌<◌, ◌≤◌, IfOk, length};
ghost use Rattle.std.specs.Io.KnownBytes.{Consumes, IsAtEnd};

use std::io;
use std::io::Read;

// Reads until the input ends or the buffer is full: hands back the front of the buffer that was filled.
pub fn read_full<'a, R: Read>(input: &mut R, buffer: &'a mut [u8]) -> io::Result<&'a [u8]>
    ensures within { IfOk result (λ read. length read.now ≤ length buffer.old) }
    ensures front { IfOk result (λ read. Consumes (R.remaining input.old) (R.remaining input.new) read.now) }
    ensures whole { IfOk result (λ read. length read.now < length buffer.old → IsAtEnd (R.remaining input.new)) }
{
    // A read brings any number of bytes, so no range counts them.
    let mut count: usize = 0;
    while count < buffer.len() {
        let more = input.read(&mut buffer[count..])?;
        if more == 0 {
            break;
        }
        count += more;
    }
    Ok(&buffer[..count])
}
