//! A writer of the standard library as a sink.

ghost use Rattle.std.specs.Prelude.{◌≡◌, ◌≤◌, None, IfOk, is_err, length};
ghost use Rattle.std.specs.Io.KnownBytes.{Keeps, WriteAppends};
ghost use Rattle.hr_base.specs.Counts.{CountsFault};
ghost use Rattle.hr_edges.specs.Edges.{is_failed_write};

use crate::failure::Failed;
use crate::sink::Sink;
use std::io::Write;

/// A writer. It does not tell its bytes, since a writer may not know them.
#[derive(Drop)]
pub struct StdSink<W> {
    inner: W,
    count: u64,
}

impl<W: Write> StdSink<W> {
    /// No failure so far.
    pub fn new(inner: W) -> StdSink<W>
        ensures count { ⟦<StdSink<W> as Sink>⟧.count result ≡ 0 }
        ensures inner { result.inner ≡ inner }
    {
        StdSink { inner, count: 0 }
    }

    /// Hands on what the writer holds back. Where that fails, some of it may be lost.
    pub fn flush(&mut self) -> Result<(), Failed>
        ensures passed { Keeps (W.contents self.old.inner) (W.contents self.new.inner) }
        ensures counted { CountsFault (is_err result)
            (⟦<StdSink<W> as Sink>⟧.count self.old) (⟦<StdSink<W> as Sink>⟧.count self.new) }
    {
        match self.inner.flush() {
            Ok(()) => Ok(()),
            Err(_) => {
                self.count = self.count.saturating_add(1);
                Err(Failed)
            }
        }
    }
}

impl<W: Write> Sink for StdSink<W> {
    ghost taken = { λ _. None };

    ghost count = { λ sink. sink.count };

    fn write(&mut self, piece: &[u8]) -> Result<usize, Failed>
        ensures passed { WriteAppends (W.contents self.old.inner) (W.contents self.new.inner)
            result piece.now }
        ensures bound { IfOk result (λ n. n ≤ length piece.now) }
        ensures counted { CountsFault (is_failed_write result piece.now)
            self.old.count self.new.count }
    {
        match self.inner.write(piece) {
            Ok(length) => {
                if length == 0 && !piece.is_empty() {
                    self.count = self.count.saturating_add(1);
                }
                Ok(length)
            }
            Err(_) => {
                self.count = self.count.saturating_add(1);
                Err(Failed)
            }
        }
    }

    fn faults(&self) -> u64 {
        self.count
    }
}
