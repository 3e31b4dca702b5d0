//! A reader of the standard library as a source.

ghost use Rattle.std.specs.Prelude.{◌≡◌, ◌≤◌, None, IfOk, is_err, length};
ghost use Rattle.std.specs.Io.KnownBytes.{ReadConsumes};
ghost use Rattle.hr_base.specs.Counts.{CountsFault};

use crate::failure::Failed;
use crate::source::Source;
use std::io::Read;

/// A reader. It does not tell its bytes, since a reader may not know them.
#[derive(Drop)]
pub struct StdSource<R> {
    inner: R,
    count: u64,
}

impl<R: Read> StdSource<R> {
    /// No failure so far.
    pub fn new(inner: R) -> StdSource<R>
        ensures count { ⟦<StdSource<R> as Source>⟧.count result ≡ 0 }
        ensures inner { result.inner ≡ inner }
    {
        StdSource { inner, count: 0 }
    }
}

impl<R: Read> Source for StdSource<R> {
    ghost left = { λ _. None };

    ghost count = { λ source. source.count };

    fn read(&mut self, into: &mut [u8]) -> Result<usize, Failed>
        ensures passed { ReadConsumes (R.remaining self.old.inner) (R.remaining self.new.inner)
            result into.new }
        ensures bound { IfOk result (λ n. n ≤ length into.new) }
        ensures counted { CountsFault (is_err result) self.old.count self.new.count }
    {
        match self.inner.read(into) {
            Ok(length) => Ok(length),
            Err(_) => {
                self.count = self.count.saturating_add(1);
                Err(Failed)
            }
        }
    }

    fn faults(&self) -> u64 {
        self.count
    }
}
