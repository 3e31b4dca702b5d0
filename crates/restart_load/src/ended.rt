//! How a session ends.

ghost use Rattle.std.specs.Prelude.{◌≡◌};
ghost use Rattle.restart_load.specs.Ends.{ended_of_restart};

use crate::refusal::RestartRefusal;

/// How a session over a folder ended.
#[derive(Clone, Copy, Debug, PartialEq, Eq)]
pub enum Ended {
    /// It was done to its end.
    Whole,
    /// The output failed.
    Sink,
    /// The disk failed.
    Disk,
    /// There was no memory.
    Memory,
    /// The folder is none that restarts.
    Load(RestartRefusal),
    /// A line would need the number `next`, which no record or chunk can have.
    Spent { next: u64 },
}

impl From<RestartRefusal> for Ended {
    ghost from_gives = { λ refusal e. e ≡ ended_of_restart refusal };

    fn from(refusal: RestartRefusal) -> Ended {
        match refusal {
            RestartRefusal::Memory => Ended::Memory,
            RestartRefusal::DiskFault => Ended::Disk,
            RestartRefusal::Partition { .. }
            | RestartRefusal::TooLarge { .. }
            | RestartRefusal::Damaged { .. }
            | RestartRefusal::Clash { .. } => Ended::Load(refusal),
        }
    }
}
