// The bytes of standard input.
#![tactic(auto)]

ghost use Rattle.std.specs.Prelude.{◌<◌, ◌≤◌, IfOk, length, take};
ghost use Rattle.std.specs.Io.KnownBytes.{Consumes, IsAtEnd};

use std::io;
use std::io::Read;

// Reads until the list is full or the reader is at its end, and gives how many bytes it put at the start of the list.
// Where a read fails, what it put there is left in it. (`read_to_end` needs a heap, and `read_exact` fails at an early end.)
pub fn fill<R: Read>(reader: &mut R, bytes: &mut [u8]) -> io::Result<usize>
    ensures within { IfOk result (λ n. n ≤ length bytes.new) }
    ensures read { IfOk result (λ n.
        Consumes (R.remaining reader.old) (R.remaining reader.new) (take n bytes.new)) }
    ensures end { IfOk result (λ n. n < length bytes.new → IsAtEnd (R.remaining reader.new)) }
{
    let mut done = 0;
    while done < bytes.len() {
        let count = reader.read(&mut bytes[done..])?;
        if count == 0 {
            return Ok(done);
        }
        done += count;
    }
    Ok(done)
}

// Reads standard input until the list is full or the input ends, and gives how many bytes it put at the start of the list.
pub fn read_full(rt: &impl Input, bytes: &mut [u8]) -> io::Result<usize>
    ensures { IfOk result (λ n. n ≤ length bytes.new) }
{
    fill(&mut rt.reader(), bytes)
}
