//! Sources: readers whose contracts say whether a read failed; and reading one to its end, or up to a limit, by a loop that counts
//! its turns.
ghost use Rattle.std.specs.Prelude.{◌≡◌, ◌<◌, ◌^◌, length, IfErr, IfOk, OnErr, OnOk, true, false};
ghost use Rattle.std.specs.Io.{ReadsAtMost};
ghost use Rattle.std.specs.Io.KnownBytes.{IsAtEnd, ReadConsumes};
ghost use Rattle.oberon_cli.specs.Transfer.{Known, Fails, Goes, IsReadUpTo, TakesAtMost};
ghost use Rattle.oberon_cli.specs.inner.Failures.{GainsInTurn, IsReadFault};

use crate::failure::Failure;
use std::alloc::Global;
use std::io::{self, Read};

/// The most bytes that one read asks for: the capacity of a pipe.
const CHUNK: usize = 65_536;

/// A reader that returns bytes in their order.
pub trait Source {
    // the bytes that are left, and whether a read has failed
    ghost known: { Self → Known };

    /// Reads bytes into the start of the chunk, and returns how many: none only at the end, or if the chunk is empty. Each `Err`,
    /// an interruption too, is a read that failed.
    fn pull(&mut self, chunk: &mut [u8]) -> io::Result<usize>
        ensures bound { ReadsAtMost result chunk.new }
        ensures bytes { ReadConsumes (known self.old).bytes (known self.new).bytes result chunk.new }
        ensures goes { OnOk result (Goes (known self.old) (known self.new)) }
        ensures fails { OnErr result (Fails (known self.new)) };
}

/// No contract of the standard library says whether a read of a reader has failed, so each may have.
impl<R: Read> Source for R {
    ghost known = { λ reader. record { bytes = R.remaining reader; failed = true } };

    fn pull(&mut self, chunk: &mut [u8]) -> io::Result<usize> {
        self.read(chunk)
    }
}

/// Reads the input to its end, or `limit` bytes of it if it has more, in at most `limit + 1` turns.
///
/// The first read that fails ends it. In no case are more than `limit` bytes taken from the input.
pub fn read_up_to<R: Source>(alloc: Global, input: &mut R, limit: usize) -> Result<Vec<u8>, Failure>
    requires { limit < 2 ^ 32 }
    ensures read { IfOk result (λ bytes. IsReadUpTo limit (R.known input.old) (R.known input.new) bytes.items) }
    ensures most { TakesAtMost limit (R.known input.old) (R.known input.new) }
    ensures fault { IfErr result (IsReadFault (R.known input.old) (R.known input.new)) }
{
    let mut bytes = Vec::new(alloc);
    let mut chunk = [0u8; CHUNK];
    for _turn in 0..limit + 1 {
        let room = (limit - bytes.len()).min(CHUNK);
        if room == 0 {
            return Ok(bytes);
        }
        if read_turn(input, &mut chunk[..room], &mut bytes)? {
            return Ok(bytes);
        }
    }
    Err(Failure::Read)
}

/// Reads once, and returns whether the input has ended: a read that returns no bytes is its end. Nothing is read again after an
/// error, an interruption too.
fn read_turn<R: Source>(
    input: &mut R,
    chunk: &mut [u8],
    bytes: &mut Vec<u8>,
) -> Result<bool, Failure>
    requires { 0 < length chunk.old }
    ensures gained { IfOk result
        (GainsInTurn (R.known input.old) (R.known input.new) bytes.old.items bytes.new.items (length chunk.old)) }
    ensures end { IfOk result (λ ended. ended ≡ true → IsAtEnd (R.known input.new).bytes) }
    ensures lost { OnErr result (TakesAtMost (length chunk.old) (R.known input.old) (R.known input.new)) }
    ensures goes { OnOk result (Goes (R.known input.old) (R.known input.new)) }
    ensures fault { IfErr result (IsReadFault (R.known input.old) (R.known input.new)) }
{
    match input.pull(chunk) {
        Ok(0) => Ok(true),
        Ok(n) => {
            bytes.extend_from_slice(&chunk[..n])?;
            Ok(false)
        }
        Err(_) => Err(Failure::Read),
    }
}
