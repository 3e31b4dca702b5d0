//! Where bytes go to.

use crate::failure::Failed;

/// Where the bytes of a session go to. Clauses on bytes hold where the sink tells them.
pub trait Sink {
    ghost use Rattle.std.specs.Prelude.{◌≡◌, ◌≤◌, ℕ, List, Option, IfOk, OnErr, length, take};
    ghost use Rattle.hr_base.specs.Counts.{CountsFault};
    ghost use Rattle.hr_edges.specs.Edges.{is_failed_write, StaysUntold, TakesAll, TakesFront};

    /// The bytes taken, where that is told.
    ghost taken: { Self → Option (List ℕ) };

    /// How often it failed, or the greatest number.
    ghost count: { Self → ℕ };

    /// Takes bytes from the front of a piece, and gives how many: 0 of a piece that is not empty only in a failure.
    fn write(&mut self, piece: &[u8]) -> Result<usize, Failed>
        ensures bound { IfOk result (λ n. n ≤ length piece.now) }
        ensures appended { IfOk result
            (λ n. TakesAll (taken self.old) (taken self.new) (take n piece.now)) }
        ensures refused { OnErr result (TakesFront (taken self.old) (taken self.new) piece.now) }
        ensures untold { StaysUntold (taken self.old) (taken self.new) }
        ensures counted { CountsFault (is_failed_write result piece.now)
            (count self.old) (count self.new) };

    /// How often it failed, or the greatest number.
    fn faults(&self) -> u64
        ensures { result ≡ count self.now };
}
