// Reading up to the end of a buffer.
#![tactic(auto)]

ghost use Rattle.std.specs.Prelude.{◌≤◌, ◌<◌, length, take, IfOk};
ghost use Rattle.std.specs.Io.KnownBytes.{Consumes, IsAtEnd};
ghost use Rattle.reading.specs.Filled.{read_in};

use std::io::Read;

// Reads until buf is full, the input ends or a read fails: how many bytes stand at the start of buf, which are the next ones of the input.
// Fewer than fit are the last of the input; an error says how many there were before a read failed.
pub fn fill<R: Read>(input: &mut R, buf: &mut [u8]) -> Result<usize, usize>
    ensures bound { read_in result ≤ length buf.new }
    ensures bytes { Consumes (R.remaining input.old) (R.remaining input.new) (take (read_in result) buf.new) }
    ensures last { IfOk result (λ n. n < length buf.new → IsAtEnd (R.remaining input.new)) }
{
    let mut done = 0;
    // Kept: `Read::read_exact` does not say how many bytes it got before the end, and `read_to_end` needs a heap.
    while done < buf.len() {
        match input.read(&mut buf[done..]) {
            Ok(0) => return Ok(done),
            Ok(n) => done += n,
            Err(_) => return Err(done),
        }
    }
    Ok(done)
}
