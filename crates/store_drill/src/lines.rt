//! The lines of a script, one after another.

ghost use Rattle.std.specs.Prelude.{◌≡◌, ◌≤◌, length, All};
ghost use Rattle.hr_base.specs.Counts.{Rose};
ghost use Rattle.script_text.specs.declared.line.Mode.TheVariants.{Play};
ghost use Rattle.script_text.specs.Lines.{IsLine};
ghost use Rattle.script_text.specs.Scripts.{left};
ghost use Rattle.restart_load.specs.declared.ended.Ended.{Ended};
ghost use Rattle.restart_load.specs.Writers.{EachIs, standings};
ghost use Rattle.store_drill.specs.Playing.{Played};
ghost use Rattle.store_drill.specs.Writers.{Runs, faults_of};

use crate::step::{Step, answer};
use dir_files::Folder;
use hr_edges::{Sink, write_all};
use partition_writer::Writer;
use restart_load::Ended;
use script_text::Lines;
use std::alloc::Global;

/// Answers lines in order, each on the writer of its partition, and writes each reply after its line, to the end or to
/// the first refusal.
pub(crate) fn play_lines<F: Folder, K: Sink>(
    alloc: Global,
    writers: &mut [Writer<F>],
    lines: &mut Lines<'_>,
    out: &mut K,
) -> Ended
    requires valid { All (IsLine Play (length writers.old)) (left lines.old) }
    requires running { EachIs Runs (standings writers.old) }
    ensures played { Played F.tells (left lines.old) (standings writers.old) (standings writers.new) (K.taken out.old) (K.taken out.new) result }
    ensures disk { result ≡ Ended.Disk → 1 ≤ faults_of (standings writers.new) }
    ensures sink { result ≡ Ended.Sink → Rose (K.count out.old) (K.count out.new) }
    ensures sink_kept { K.count out.old ≤ K.count out.new }
{
    let mut text = Vec::new(alloc);
    'script: while lines.advance() {
        match answer(writers, &lines.line(), &mut text) {
            Step::Answered => {}
            Step::NoReply => return Ended::Memory,
            Step::NoMemory => return Ended::Memory,
            Step::DiskFailed => return Ended::Disk,
            Step::Spent { next } => return Ended::Spent { next },
        }
        match write_all(out, text.as_slice()) {
            Ok(()) => {}
            Err(_) => return Ended::Sink,
        }
    }
    Ended::Whole
}
