//! The script of a session.

ghost use Rattle.std.specs.Prelude.{◌≡◌, ◌≤◌, All, IfOk, IfErr, OnOk};
ghost use Rattle.hr_base.specs.Counts.{Rose};
ghost use Rattle.hr_base.specs.LimitRanges.{IsPartitionCount};
ghost use Rattle.hr_edges.specs.Edges.{IsRead};
ghost use Rattle.script_text.specs.declared.line.Mode.{Mode};
ghost use Rattle.script_text.specs.Lines.{IsLine};
ghost use Rattle.store_serve.specs.declared.outcome.Outcome.{Outcome};
ghost use Rattle.store_serve.specs.Scripts.{IsRefusedScript, IsScriptOf};

use crate::outcome::Outcome;
use hr_base::MAX_SCRIPT_LEN;
use hr_edges::{Source, read_all};
use script_text::{Mode, Script, read_script};
use std::alloc::Global;

/// Reads the whole input as a script for so many partitions.
pub fn read_lines<S: Source>(
    alloc: Global,
    input: &mut S,
    partitions: u8,
) -> Result<Script, Outcome>
    requires { IsPartitionCount partitions }
    ensures found { IfOk result (λ script. IsScriptOf partitions (S.left input.old) script) }
    ensures valid { IfOk result (λ script. All (IsLine Mode.Play partitions) script) }
    ensures ended { OnOk result (IsRead (S.left input.old) (S.left input.new)) }
    ensures refused { IfErr result (IsRefusedScript partitions (S.left input.old) (S.left input.new)) }
    ensures fault { IfErr result (λ e. e ≡ Outcome.Input → Rose (S.count input.old) (S.count input.new)) }
    ensures kept { S.count input.old ≤ S.count input.new }
{
    let bytes = read_all(alloc, input, MAX_SCRIPT_LEN)?;
    Ok(read_script(bytes, Mode::Play, partitions)?)
}
