//! Writing whole pieces.

ghost use Rattle.std.specs.Prelude.{◌≤◌, OnOk, OnErr};
ghost use Rattle.hr_base.specs.Counts.{Rose};
ghost use Rattle.hr_edges.specs.Edges.{StaysUntold, TakesAll, TakesFront};

use crate::failure::Failed;
use crate::sink::Sink;

/// Writes all of a piece. A sink that takes nothing of what is left failed.
pub fn write_all<K: Sink>(out: &mut K, piece: &[u8]) -> Result<(), Failed>
    ensures ok { OnOk result (TakesAll (K.taken out.old) (K.taken out.new) piece.now) }
    ensures err { OnErr result (TakesFront (K.taken out.old) (K.taken out.new) piece.now) }
    ensures untold { StaysUntold (K.taken out.old) (K.taken out.new) }
    ensures fault { OnErr result (Rose (K.count out.old) (K.count out.new)) }
    ensures kept { K.count out.old ≤ K.count out.new }
{
    let mut rest = piece;
    while !rest.is_empty() {
        let taken = out.write(rest)?;
        if taken == 0 {
            return Err(Failed);
        }
        rest = &rest[taken..];
    }
    Ok(())
}
