//! A session over a folder.

ghost use Rattle.std.specs.Prelude.{◌≡◌, ◌≤◌, ℕ, true, length, All};
ghost use Rattle.hr_base.specs.Counts.{Rose};
ghost use Rattle.hr_base.specs.declared.limits.Limits.{Limits};
ghost use Rattle.hr_base.specs.LimitRanges.{IsLimits};
ghost use Rattle.dir_files.specs.Images.{read_of};
ghost use Rattle.dir_files.specs.PortStates.{IsAtRest, IsCalm};
ghost use Rattle.crash_law.specs.Restarts.{IsRestartable};
ghost use Rattle.script_text.specs.declared.line.Mode.TheVariants.{Play};
ghost use Rattle.script_text.specs.Lines.{IsLine};
ghost use Rattle.script_text.specs.Scripts.{left};
ghost use Rattle.restart_load.specs.declared.ended.Ended.{Ended};
ghost use Rattle.restart_load.specs.Writers.{AreResumed, EachIs, HasLimits, standings};
ghost use Rattle.store_drill.specs.Playing.{Played};
ghost use Rattle.store_drill.specs.Sessions.{Ran, Session, outside};
ghost use Rattle.store_drill.specs.Writers.{Runs, faults_of};

use crate::lines::play_lines;
use crate::writers::close_writers;
use dir_files::Folder;
use hr_base::Limits;
use hr_edges::Sink;
use partition_writer::Writer;
use restart_load::{Ended, restart};
use script_text::{Lines, Script};
use std::alloc::Global;

/// Plays lines on writers in a list.
fn play_on<F: Folder, K: Sink>(
    alloc: Global,
    writers: &mut Vec<Writer<F>>,
    lines: &mut Lines<'_>,
    out: &mut K,
) -> Ended
    requires valid { All (IsLine Play (length writers.old.items)) (left lines.old) }
    requires running { EachIs Runs (standings writers.old.items) }
    ensures played { Played F.tells (left lines.old) (standings writers.old.items) (standings writers.new.items) (K.taken out.old) (K.taken out.new) result }
    ensures same { length writers.new.items ≡ length writers.old.items }
    ensures disk { result ≡ Ended.Disk → 1 ≤ faults_of (standings writers.new.items) }
    ensures sink { result ≡ Ended.Sink → Rose (K.count out.old) (K.count out.new) }
    ensures sink_kept { K.count out.old ≤ K.count out.new }
{
    play_lines(alloc, writers.as_mut_slice(), lines, out)
}

/// Plays lines on the writers of a folder that was restarted, and closes them.
fn play_restarted<F: Folder, K: Sink>(
    alloc: Global,
    lines: &mut Lines<'_>,
    folder: &mut F,
    out: &mut K,
    mut writers: Vec<Writer<F>>,
) -> Ended
    requires valid { All (IsLine Play (length writers.items)) (left lines.old) }
    requires resumed { AreResumed F.tells (read_of (F.port folder.old)) (standings writers.items) }
    requires restartable { F.tells ≡ true → IsRestartable (read_of (F.port folder.old)) (length writers.items) }
    requires at_rest { F.tells ≡ true → IsAtRest (F.port folder.old) }
    ensures calm { F.tells ≡ true → IsCalm (F.port folder.new) }
    ensures session { (limits : Limits) → EachIs (HasLimits limits) (standings writers.items) → length writers.items ≡ limits.partitions
        → Session F.tells limits (left lines.old) (outside ⟦<F as Folder>⟧ ⟦<K as Sink>⟧ folder.old out.old)
        (outside ⟦<F as Folder>⟧ ⟦<K as Sink>⟧ folder.new out.new) result }
    ensures disk { result ≡ Ended.Disk → Rose (F.count folder.old) (F.count folder.new) }
    ensures sink { result ≡ Ended.Sink → Rose (K.count out.old) (K.count out.new) }
    ensures kept { F.count folder.old ≤ F.count folder.new }
    ensures sink_kept { K.count out.old ≤ K.count out.new }
{
    let ended = play_on(alloc, &mut writers, lines, out);
    close_writers(writers, folder);
    ended
}

/// Plays lines over a folder, which is restarted first.
fn play_all<F: Folder, K: Sink>(
    alloc: Global,
    lines: &mut Lines<'_>,
    limits: &Limits,
    folder: &mut F,
    out: &mut K,
) -> Ended
    requires limits { IsLimits limits.now }
    requires valid { All (IsLine Play limits.now.partitions) (left lines.old) }
    requires calm { F.tells ≡ true → IsCalm (F.port folder.old) }
    ensures calm { F.tells ≡ true → IsCalm (F.port folder.new) }
    ensures ran { Ran F.tells limits.now (left lines.old) (outside ⟦<F as Folder>⟧ ⟦<K as Sink>⟧ folder.old out.old)
        (outside ⟦<F as Folder>⟧ ⟦<K as Sink>⟧ folder.new out.new) result }
    ensures disk { result ≡ Ended.Disk → Rose (F.count folder.old) (F.count folder.new) }
    ensures sink { result ≡ Ended.Sink → Rose (K.count out.old) (K.count out.new) }
    ensures kept { F.count folder.old ≤ F.count folder.new }
    ensures sink_kept { K.count out.old ≤ K.count out.new }
{
    match restart(alloc, folder, limits) {
        Ok(writers) => play_restarted(alloc, lines, folder, out, writers),
        Err(refusal) => Ended::from(refusal),
    }
}

/// Plays the lines of a script over a folder, which is restarted first, with a writer for each partition. Each reply is
/// written after its line. At the end every file is given back.
pub fn play<F: Folder, K: Sink>(
    alloc: Global,
    script: &Script,
    limits: &Limits,
    folder: &mut F,
    out: &mut K,
) -> Ended
    requires limits { IsLimits limits.now }
    requires valid { All (IsLine Play limits.now.partitions) script.now }
    requires calm { F.tells ≡ true → IsCalm (F.port folder.old) }
    ensures calm { F.tells ≡ true → IsCalm (F.port folder.new) }
    // What was answered and written, what every crash leaves, and why no more.
    ensures ran { Ran F.tells limits.now script.now (outside ⟦<F as Folder>⟧ ⟦<K as Sink>⟧ folder.old out.old)
        (outside ⟦<F as Folder>⟧ ⟦<K as Sink>⟧ folder.new out.new) result }
    // The disk or the output failed only where its count rose.
    ensures disk { result ≡ Ended.Disk → Rose (F.count folder.old) (F.count folder.new) }
    ensures sink { result ≡ Ended.Sink → Rose (K.count out.old) (K.count out.new) }
    ensures kept { F.count folder.old ≤ F.count folder.new }
    ensures sink_kept { K.count out.old ≤ K.count out.new }
{
    match script.lines(alloc) {
        Ok(mut lines) => play_all(alloc, &mut lines, limits, folder, out),
        Err(_refused) => Ended::Memory,
    }
}
