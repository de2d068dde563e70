// Reads as much of an input as a buffer holds.
#![tactic(auto)]

ghost use Rattle.std.specs.Prelude.{◌≡◌, ◌<◌, ◌≤◌, ℕ, length, take, replicate, IfOk, IfErr};
ghost use Rattle.std.specs.Io.{ReadsAtMost};
ghost use Rattle.std.specs.Io.KnownBytes.{Consumes, IsAtEnd};

use std::io;
use std::io::Read;

// Room for what is read at once: one byte more than the longest record.
pub const LARGE: usize = 65536;

// That many zeros.
pub fn large_buffer() -> [u8; LARGE]
    ensures { result ≡ replicate LARGE 0 }
{
    [0u8; LARGE]
}

// Reads until the buffer is full or the input ends, and gives how many bytes it put at the buffer's front.
pub fn read_full<R: Read>(input: &mut R, buf: &mut [u8]) -> io::Result<usize>
    ensures bound { ReadsAtMost result buf.new }
    ensures bytes { IfOk result (λ n. Consumes (R.remaining input.old) (R.remaining input.new) (take n buf.new)) }
    ensures end { IfOk result (λ n. n < length buf.new → IsAtEnd (R.remaining input.new)) }
    // What was read before the error stands at the front.
    ensures failed { IfErr result (λ _. (n : ℕ) × (n ≤ length buf.new) × Consumes (R.remaining input.old) (R.remaining input.new) (take n buf.new)) }
{
    // Kept: what each read gives moves this place, no count does; and `read_exact` says nothing of what was read before an error.
    let mut done = 0;
    while done < buf.len() {
        let n = input.read(&mut buf[done..])?;
        if n == 0 {
            return Ok(done);
        }
        done += n;
    }
    Ok(done)
}
