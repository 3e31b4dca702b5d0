//! Where bytes come from.

use crate::failure::Failed;

/// Where the bytes of a session come from. Clauses on bytes hold where the source tells them.
pub trait Source {
    ghost use Rattle.std.specs.Prelude.{◌≡◌, ◌<◌, ◌≤◌, ℕ, [], List, Option, IfSome, IfOk, OnErr, is_err, length};
    ghost use Rattle.hr_base.specs.Counts.{CountsFault};
    ghost use Rattle.hr_edges.specs.Edges.{GivesFirst, StaysUntold};

    /// The bytes that are left, where that is told.
    ghost left: { Self → Option (List ℕ) };

    /// How often it failed, or the greatest number.
    ghost count: { Self → ℕ };

    /// Moves bytes to the front of a buffer, and gives how many: 0 for a buffer that is not empty where none are left.
    fn read(&mut self, into: &mut [u8]) -> Result<usize, Failed>
        ensures bound { IfOk result (λ n. n ≤ length into.new) }
        ensures given { IfSome (left self.old)
            (λ bytes. IfOk result (λ n. GivesFirst bytes (left self.new) n into.new)) }
        ensures end { IfSome (left self.old)
            (λ bytes. IfOk result (λ n. n ≡ 0 → 0 < length into.new → bytes ≡ [])) }
        ensures refused { OnErr result (left self.new ≡ left self.old) }
        ensures untold { StaysUntold (left self.old) (left self.new) }
        ensures counted { CountsFault (is_err result) (count self.old) (count self.new) };

    /// How often it failed, or the greatest number.
    fn faults(&self) -> u64
        ensures { result ≡ count self.now };
}
