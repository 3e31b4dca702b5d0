//! The records of a partition, replayed.

ghost use Rattle.std.specs.Prelude.{◌≡◌, All, IfOk, OnOk, IsErrOf};
ghost use Rattle.hr_base.specs.declared.name.Seq.{Seq as Number};
ghost use Rattle.hr_base.specs.Entries.{KeepsLimits};
ghost use Rattle.record_format.specs.Spelling.{IsRecord};
ghost use Rattle.crash_law.specs.Placed.{records_of};
ghost use Rattle.crash_law.specs.Restarts.{Agree, IsRestartOf};
ghost use Rattle.record_replay.specs.Replays.{IsFirstClash, IsNext, facts_in};
ghost use Rattle.record_replay.specs.declared.replaying.ReplayRefusal.TheVariants.{Memory as OutOfMemory};

use crate::found::FoundRecords;
use crate::order::{first_clash, order_of};
pub use crate::play::Replayed;
use crate::play::play_all;
use hr_base::{Memory, Seq};
use std::alloc::Global;
use thiserror::Error;

/// Why records were not replayed.
#[derive(Clone, Copy, Debug, PartialEq, Eq, Error)]
pub enum ReplayRefusal {
    /// There was no memory.
    #[error("out of memory")]
    Memory,
    /// Two different records have the number `seq`, the least of which that is so.
    #[error("two records have the number {}", seq.0)]
    Clash { seq: Seq },
}

impl From<Memory> for ReplayRefusal {
    ghost from_gives = { λ _ e. e ≡ OutOfMemory };

    fn from(_refused: Memory) -> ReplayRefusal {
        ReplayRefusal::Memory
    }
}

/// The maps that found records restart to, and the number of the next record. The records may stand in any order, and
/// one of them several times.
///
/// Each record is moved out of the list as it is played. Its value is shared and not copied.
pub fn replay(alloc: Global, found: FoundRecords) -> Result<Replayed, ReplayRefusal>
    requires { All IsRecord (records_of found) }
    ensures restart { IfOk result (λ replayed. IsRestartOf (facts_in found) replayed.map.entries) }
    ensures agree { OnOk result (Agree (facts_in found)) }
    ensures next { IfOk result (λ replayed. IsNext (facts_in found) replayed.next) }
    ensures lengths { IfOk result (λ replayed. KeepsLimits replayed.map.entries) }
    ensures clash { (seq : Number) → IsErrOf result (ReplayRefusal.Clash seq)
        → IsFirstClash (facts_in found) seq.0 }
{
    let order = order_of(alloc, &found.list)?;
    match first_clash(&found.list, &order) {
        Some(seq) => Err(ReplayRefusal::Clash { seq }),
        None => Ok(play_all(alloc, found.list, &order)?),
    }
}
