//! Sinks: writers whose contracts say whether a write failed; and writing all bytes to one, by a loop that counts its turns.
ghost use Rattle.std.specs.Prelude.{◌<◌, ◌≤◌, IfOk, OnErr, OnOk, length, true};
ghost use Rattle.std.specs.Io.KnownBytes.{Keeps, WriteAppends};
ghost use Rattle.oberon_cli.specs.Transfer.{Known, Fails, GainsPrefix, GainsWhole, Goes};

use std::io::Write;

/// A write or a flush failed, or a write accepted none of the remaining bytes.
#[derive(Clone, Copy, Debug, PartialEq, Eq)]
pub struct WriteFault;

/// A writer that takes bytes in their order.
pub trait Sink {
    // the bytes that it was given, and whether a write or a flush has failed
    ghost known: { Self → Known };

    /// Writes a prefix of the rest, and returns its length: at least one.
    fn put(&mut self, rest: &[u8]) -> Result<usize, WriteFault>
        requires { 0 < length rest.now }
        ensures some { IfOk result (λ n. (0 < n) × (n ≤ length rest.now)) }
        ensures bytes { WriteAppends (known self.old).bytes (known self.new).bytes result rest.now }
        ensures goes { OnOk result (Goes (known self.old) (known self.new)) }
        ensures fails { OnErr result (Fails (known self.new)) };

    /// Flushes what it holds back.
    fn finish(&mut self) -> Result<(), WriteFault>
        ensures bytes { Keeps (known self.old).bytes (known self.new).bytes }
        ensures goes { OnOk result (Goes (known self.old) (known self.new)) }
        ensures fails { OnErr result (Fails (known self.new)) };
}

/// No contract of the standard library says whether a write of a writer has failed, so each may have.
impl<W: Write> Sink for W {
    ghost known = { λ writer. record { bytes = W.contents writer; failed = true } };

    fn put(&mut self, rest: &[u8]) -> Result<usize, WriteFault> {
        match self.write(rest) {
            Ok(0) | Err(_) => Err(WriteFault),
            Ok(n) => Ok(n),
        }
    }

    fn finish(&mut self) -> Result<(), WriteFault> {
        match self.flush() {
            Ok(()) => Ok(()),
            Err(_) => Err(WriteFault),
        }
    }
}

/// Writes all of the bytes, and flushes the writer, in at most one turn more than there are bytes.
///
/// The first call that fails ends it; then a prefix of the bytes was written, and nothing else. No contract says that it flushes, since
/// a writer of the standard library shows only its bytes: a test of `cli_tests` does.
pub fn write_whole<W: Sink>(output: &mut W, bytes: &[u8]) -> Result<(), WriteFault>
    ensures whole { OnOk result (GainsWhole bytes.now (W.known output.old) (W.known output.new)) }
    ensures prefix { OnErr result (GainsPrefix bytes.now (W.known output.old) (W.known output.new)) }
{
    let mut done = 0;
    for _turn in 0..bytes.len() + 1 {
        if done == bytes.len() {
            return output.finish();
        }
        done += output.put(&bytes[done..])?;
    }
    Err(WriteFault)
}
