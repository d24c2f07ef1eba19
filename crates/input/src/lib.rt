// Input: the bytes of a reader, read into the caller's memory.
#![tactic(auto)]

ghost use Rattle.std.specs.Prelude.{◌≢◌, ◌<◌, ◌≤◌, length, take, IfOk, IfErr};
ghost use Rattle.std.specs.IoError.{error_kind};
ghost use Rattle.std.specs.Io.KnownBytes.{Consumes, IsAtEnd};

use std::io;
use std::io::{ErrorKind, Read};

#[cfg(test)]
mod tests;

/// Reads until the input ends or the bytes are full, and answers how many were read. A read that is interrupted is made again.
/// Where the largest 64-bit number of reads did not come to an end, the error is `TimedOut`.
/// Nothing is said of the bytes past these, nor of any after an error: a reader may write there.
pub fn read_all<R: Read>(input: &mut R, bytes: &mut [u8]) -> io::Result<usize>
    ensures within { IfOk result (λ n. n ≤ length bytes.old) }
    ensures read { IfOk result (λ n. Consumes (R.remaining input.old) (R.remaining input.new) (take n bytes.new)) }
    ensures end { IfOk result (λ n. n < length bytes.old → IsAtEnd (R.remaining input.new)) }
    ensures retried { IfErr result (λ fault. error_kind fault ≢ ErrorKind.Interrupted) }
{
    let mut count = 0;
    // Nothing says that an input ends, so the reads are counted. No call of the library reads to the end without a heap.
    for _ in 0..u64::MAX {
        match input.read(&mut bytes[count..]) {
            Ok(0) => return Ok(count),
            Ok(got) => count += got,
            Err(fault) if fault.kind() == ErrorKind::Interrupted => {}
            Err(fault) => return Err(fault),
        }
    }
    Err(ErrorKind::TimedOut.into())
}
