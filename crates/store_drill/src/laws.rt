//! What holds of numbers that are spent. It is the contract of a function that does nothing.

ghost use Rattle.std.specs.Prelude.{ℕ, List, All};
ghost use Rattle.hr_base.specs.declared.limits.Limits.{Limits};
ghost use Rattle.dir_files.specs.Images.{Image};
ghost use Rattle.script_text.specs.declared.line.Line.{Line};
ghost use Rattle.script_text.specs.declared.line.Mode.TheVariants.{Play};
ghost use Rattle.script_text.specs.Lines.{IsLine};
ghost use Rattle.store_drill.specs.Numbers.{IsSpentAt, SessionStart};
ghost use Rattle.store_drill.specs.Sessions.{IsStart};

/// Which line of a script needs a number that none can have, and which number, the folder alone decides: it is the same
/// for all that can be said of what the folder restarts to.
pub fn one_spending()
    ensures { (image : Image) (limits : Limits) (lines : List Line) (count : ℕ) (a b : SessionStart) (next : ℕ)
        → All (IsLine Play limits.partitions) lines → IsStart image limits.partitions a → IsStart image limits.partitions b
        → IsSpentAt limits lines count a next → IsSpentAt limits lines count b next }
{}
