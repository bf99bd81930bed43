//! Readers and writers that record whether a call of them failed.
ghost use Rattle.std.specs.Prelude.{◌≡◌, false};

use oberon_cli::{Sink, Source, WriteFault};
use std::io;

/// A reader or a writer, and whether a call of it failed.
#[derive(Drop)]
pub(super) struct Watched<T> {
    inner: T,
    failed: bool,
}

impl<T> Watched<T> {
    /// Returns this reader or writer, of which no call has failed yet.
    pub(super) fn new(inner: T) -> Watched<T>
        ensures { result.failed ≡ false }
    {
        Watched {
            inner,
            failed: false,
        }
    }

    /// Reports whether a call of it failed.
    pub(super) fn has_failed(&self) -> bool
        ensures { result ≡ self.now.failed }
    {
        self.failed
    }

    /// Returns the reader or the writer itself.
    pub(super) fn into_inner(self) -> T {
        self.inner
    }
}

impl<R: Source> Source for Watched<R> {
    ghost known = { λ watched. record {
      bytes = (R.known watched.inner).bytes;
      failed = watched.failed;
    } };

    fn pull(&mut self, chunk: &mut [u8]) -> io::Result<usize> {
        let pulled = self.inner.pull(chunk);
        if pulled.is_err() {
            self.failed = true;
        }
        pulled
    }
}

impl<W: Sink> Sink for Watched<W> {
    ghost known = { λ watched. record {
      bytes = (W.known watched.inner).bytes;
      failed = watched.failed;
    } };

    fn put(&mut self, rest: &[u8]) -> Result<usize, WriteFault> {
        let taken = self.inner.put(rest);
        if taken.is_err() {
            self.failed = true;
        }
        taken
    }

    fn finish(&mut self) -> Result<(), WriteFault> {
        let finished = self.inner.finish();
        if finished.is_err() {
            self.failed = true;
        }
        finished
    }
}
