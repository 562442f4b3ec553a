// Reading into a fixed buffer, over std's readers.
#![tactic(auto)]

ghost use Rattle.std.specs.Prelude.{IfOk, take};
ghost use Rattle.std.specs.Io.KnownBytes.{Consumes};
ghost use Rattle.whole_input.specs.Counts.{IsPrefixLen};

use std::io;
use std::io::Read;

// Reads until the buffer is full or the input ends, and returns how many bytes it put at the start of the buffer.
pub fn read_full<R: Read>(reader: &mut R, bytes: &mut [u8]) -> io::Result<usize>
    ensures len { IfOk result (λ n. IsPrefixLen n bytes.new) }
    ensures bytes { IfOk result (λ n. Consumes (R.remaining reader.old) (R.remaining reader.new) (take n bytes.new)) }
{
    let mut done = 0;
    while done < bytes.len() {
        let count = reader.read(&mut bytes[done..])?;
        if count == 0 {
            return Ok(done);
        }
        done += count;
    }
    Ok(done)
}
