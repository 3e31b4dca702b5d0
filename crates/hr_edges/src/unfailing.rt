//! A source and a sink that never fail, and tell no bytes.

ghost use Rattle.std.specs.Prelude.{◌≡◌, None, Ok, All, length};

use crate::failure::Failed;
use crate::sink::Sink;
use crate::source::Source;

/// Zero bytes without an end.
#[derive(Clone, Copy, Debug)]
pub struct EndlessSource;

impl EndlessSource {
    /// The only one.
    pub fn new() -> EndlessSource
        ensures left { ⟦<EndlessSource as Source>⟧.left result ≡ None }
        ensures count { ⟦<EndlessSource as Source>⟧.count result ≡ 0 }
    {
        EndlessSource
    }
}

impl Source for EndlessSource {
    ghost left = { λ _. None };

    ghost count = { λ _. 0 };

    /// Fills the buffer with zero bytes.
    fn read(&mut self, into: &mut [u8]) -> Result<usize, Failed>
        ensures whole { result ≡ Ok (length into.new) }
        ensures zeros { All (λ byte. byte ≡ 0) into.new }
    {
        into.fill(0);
        Ok(into.len())
    }

    fn faults(&self) -> u64
        ensures { result ≡ 0 }
    {
        0
    }
}

/// Room without an end, in which nothing is kept.
#[derive(Clone, Copy, Debug)]
pub struct NullSink;

impl NullSink {
    /// The only one.
    pub fn new() -> NullSink
        ensures taken { ⟦<NullSink as Sink>⟧.taken result ≡ None }
        ensures count { ⟦<NullSink as Sink>⟧.count result ≡ 0 }
    {
        NullSink
    }
}

impl Sink for NullSink {
    ghost taken = { λ _. None };

    ghost count = { λ _. 0 };

    /// Takes the whole piece.
    fn write(&mut self, piece: &[u8]) -> Result<usize, Failed>
        ensures { result ≡ Ok (length piece.now) }
    {
        Ok(piece.len())
    }

    fn faults(&self) -> u64
        ensures { result ≡ 0 }
    {
        0
    }
}
