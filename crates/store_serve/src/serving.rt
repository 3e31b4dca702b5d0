//! The top call.

ghost use Rattle.std.specs.Prelude.{◌≡◌, ◌≤◌, ◌⊎◌, ℕ, true};
ghost use Rattle.hr_base.specs.declared.limits.Limits.{Limits};
ghost use Rattle.hr_base.specs.Counts.{Rose};
ghost use Rattle.hr_base.specs.LimitRanges.{IsLimits};
ghost use Rattle.hr_edges.specs.Edges.{IsRead};
ghost use Rattle.dir_files.specs.Images.{KeepsImages, read_of};
ghost use Rattle.dir_files.specs.PortStates.{IsCalm};
ghost use Rattle.command_words.specs.declared.read.Command.{Command};
ghost use Rattle.command_words.specs.Words.{IsCommand, word_texts};
ghost use Rattle.restart_load.specs.Refusals.{IsRefusedFor, SpeaksOfContent};
ghost use Rattle.restart_load.specs.declared.ended.Ended.{Ended};
ghost use Rattle.restart_load.specs.declared.refusal.RestartRefusal.{RestartRefusal};
ghost use Rattle.store_serve.specs.declared.outcome.Outcome.{Outcome};
ghost use Rattle.store_serve.specs.Outcome.{IsTellable, IsEarly, CanRefuse, CanRefuseFolder, CanRefuseNumber, CanRefuseWords};
ghost use Rattle.store_serve.specs.Scripts.{IsFit, IsUnfit, ReadsFew};
ghost use Rattle.store_serve.specs.Served.{Because, CameTo, CanBegin, IsNoCommand, Means, ReadsNothingUnfit, Served, WasDone, WasRefused, WasSpentBy, WasUnloadable, WillSpend, partitions_of, world};

use crate::outcome::Outcome;
use crate::script::read_lines;
use crate::telling::tell;
use command_words::{Command, read_words};
use dir_files::Folder;
use hr_base::Limits;
use hr_edges::{Sink, Source};
use std::alloc::Global;
use store_drill::{dump, play};

/// Reads a script and plays it.
fn play_script<F: Folder, S: Source, K: Sink>(
    alloc: Global,
    limits: &Limits,
    folder: &mut F,
    input: &mut S,
    out: &mut K,
) -> Outcome
    requires limits { IsLimits limits.now }
    requires calm { F.tells ≡ true → IsCalm (F.port folder.old) }
    ensures calm { F.tells ≡ true → IsCalm (F.port folder.new) }
    ensures came { CameTo F.tells (Command.Play limits.now)
        (world ⟦<F as Folder>⟧ ⟦<S as Source>⟧ ⟦<K as Sink>⟧ folder.old input.old out.old)
        (world ⟦<F as Folder>⟧ ⟦<S as Source>⟧ ⟦<K as Sink>⟧ folder.new input.new out.new) result }
    ensures tellable { IsTellable result }
    ensures untouched { IsEarly result → folder.new ≡ folder.old }
    ensures spared { IsUnfit limits.now.partitions (S.left input.old) → folder.new ≡ folder.old }
    ensures words { result ≡ Outcome.Words → ⊥ }
    ensures input { result ≡ Outcome.Input → Rose (S.count input.old) (S.count input.new) }
    ensures sink { result ≡ Outcome.Ended Ended.Sink → Rose (K.count out.old) (K.count out.new) }
    ensures disk { result ≡ Outcome.Ended Ended.Disk → Rose (F.count folder.old) (F.count folder.new) }
    ensures sink_kept { K.count out.old ≤ K.count out.new }
{
    match read_lines(alloc, input, limits.partitions) {
        Ok(script) => Outcome::Ended(play(alloc, &script, limits, folder, out)),
        Err(outcome) => outcome,
    }
}

/// Does what the words say, up to the last line.
fn run<F: Folder, S: Source, K: Sink>(
    alloc: Global,
    words: &[String],
    folder: &mut F,
    input: &mut S,
    out: &mut K,
) -> Outcome
    requires calm { F.tells ≡ true → IsCalm (F.port folder.old) }
    ensures calm { F.tells ≡ true → IsCalm (F.port folder.new) }
    ensures because { Because F.tells (word_texts words.now)
        (world ⟦<F as Folder>⟧ ⟦<S as Source>⟧ ⟦<K as Sink>⟧ folder.old input.old out.old)
        (world ⟦<F as Folder>⟧ ⟦<S as Source>⟧ ⟦<K as Sink>⟧ folder.new input.new out.new) result }
    ensures tellable { IsTellable result }
    ensures words { result ≡ Outcome.Words → IsNoCommand (word_texts words.now)
        × (folder.new ≡ folder.old) × (input.new ≡ input.old) × (out.new ≡ out.old) }
    ensures no_command { IsNoCommand (word_texts words.now)
        → ((result ≡ Outcome.Words) ⊎ (result ≡ Outcome.Ended Ended.Memory))
        × (folder.new ≡ folder.old) × (input.new ≡ input.old) }
    ensures untouched { IsEarly result → folder.new ≡ folder.old }
    ensures spared { (limits : Limits) → IsCommand (word_texts words.now) (Command.Play limits)
        → IsUnfit limits.partitions (S.left input.old) → folder.new ≡ folder.old }
    ensures input { result ≡ Outcome.Input → Rose (S.count input.old) (S.count input.new) }
    ensures sink { result ≡ Outcome.Ended Ended.Sink → Rose (K.count out.old) (K.count out.new) }
    ensures disk { result ≡ Outcome.Ended Ended.Disk → Rose (F.count folder.old) (F.count folder.new) }
    ensures unread { (limits : Limits) → IsCommand (word_texts words.now) (Command.Dump limits)
        → input.new ≡ input.old }
    ensures sink_kept { K.count out.old ≤ K.count out.new }
{
    match read_words(alloc, words) {
        Ok(Command::Play(limits)) => play_script(alloc, &limits, folder, input, out),
        Ok(Command::Dump(limits)) => Outcome::Ended(dump(alloc, &limits, folder, out)),
        Err(refusal) => Outcome::from(refusal),
    }
}

/// Does what the words say over a folder, a source and a sink, and answers the status.
pub fn serve<F: Folder, S: Source, K: Sink>(
    alloc: Global,
    words: &[String],
    folder: &mut F,
    input: &mut S,
    out: &mut K,
) -> u8
    requires calm { F.tells ≡ true → IsCalm (F.port folder.old) }

    // Nothing is lent and nothing is foreign, for every status.
    ensures calm { F.tells ≡ true → IsCalm (F.port folder.new) }
    // What was replied, what was refused and why, what every crash leaves, and what is read where the disk did
    // not fail.
    ensures served { Served F.tells (word_texts words.now)
        (world ⟦<F as Folder>⟧ ⟦<S as Source>⟧ ⟦<K as Sink>⟧ folder.old input.old out.old)
        (world ⟦<F as Folder>⟧ ⟦<S as Source>⟧ ⟦<K as Sink>⟧ folder.new input.new out.new) result }
    // A script that can be played, a folder that restarts, numbers for all lines and no fault: all is done, unless
    // memory is wanting. For a dump the same but for the script and the numbers.
    ensures complete { F.tells ≡ true → (command : Command) → IsCommand (word_texts words.now) command
        → CanBegin command (read_of (F.port folder.old)) (S.left input.old)
        → (Rose (S.count input.old) (S.count input.new) → ⊥) → (Rose (K.count out.old) (K.count out.new) → ⊥)
        → (Rose (F.count folder.old) (F.count folder.new) → ⊥) → (result ≡ 0) ⊎ (result ≡ 7) }

    // Status 0: the whole script was done, or all maps were written, and what was told of that, all of it and nothing
    // else, was taken.
    ensures whole { result ≡ 0 → Means (word_texts words.now) (λ command. WasDone F.tells command
        (read_of (F.port folder.old)) (S.left input.old) (K.taken out.old) (K.taken out.new)) }
    // Statuses 0, 5, 6 and 8: the source was read to its end; statuses 2 and 3 say themselves how far it was read. A
    // dump reads nothing, and every file keeps its bytes, whatever the status.
    ensures ended { (limits : Limits) → IsCommand (word_texts words.now) (Command.Play limits)
        → (result ≡ 0) ⊎ (result ≡ 5) ⊎ (result ≡ 6) ⊎ (result ≡ 8)
        → IsRead (S.left input.old) (S.left input.new) }
    ensures unread { (limits : Limits) → IsCommand (word_texts words.now) (Command.Dump limits)
        → input.new ≡ input.old }
    ensures unwritten { F.tells ≡ true → (limits : Limits)
        → IsCommand (word_texts words.now) (Command.Dump limits)
        → KeepsImages (F.port folder.old) (F.port folder.new) }
    // Status 1: only where the words mean no command. Nothing was touched.
    ensures words { result ≡ 1 → IsNoCommand (word_texts words.now) }
    ensures idle { result ≡ 1 → (folder.new ≡ folder.old) × (input.new ≡ input.old) × (out.new ≡ out.old) }
    // Where they mean none, the status is 1, unless memory was wanting; then the sink alone may have changed.
    ensures no_command { IsNoCommand (word_texts words.now)
        → CanRefuseWords result × (folder.new ≡ folder.old) × (input.new ≡ input.old) }
    // Status 2: more was read than a script may have, or a line is the first at fault; that is told, and nothing
    // else. For such a script the folder stays as it was, whatever the status.
    ensures refused { result ≡ 2 → Means (word_texts words.now) (λ command. WasRefused command
        (S.left input.old) (S.left input.new) (K.taken out.old) (K.taken out.new)) }
    ensures unfit { (limits : Limits) → IsCommand (word_texts words.now) (Command.Play limits)
        → IsUnfit limits.partitions (S.left input.old) → CanRefuse result × (folder.new ≡ folder.old) }
    // Statuses 1, 2 and 3: the folder stays as it was.
    ensures untouched { (result ≡ 1) ⊎ (result ≡ 2) ⊎ (result ≡ 3) → folder.new ≡ folder.old }
    // Statuses 3, 4 and 5: only where the count of faults of the source, the sink or the folder rose.
    ensures input { result ≡ 3 → Rose (S.count input.old) (S.count input.new) }
    ensures sink { result ≡ 4 → Rose (K.count out.old) (K.count out.new) }
    ensures disk { result ≡ 5 → Rose (F.count folder.old) (F.count folder.new) }
    // Status 3: no more was read than a script may have, so a script of which more was read never comes to it.
    ensures few { result ≡ 3 → ReadsFew (S.left input.old) (S.left input.new) }
    // Status 6: the folder does not restart, the first thing that is wrong with it is told, and nothing else. Such a
    // folder is never played over, nor written.
    ensures unloadable { F.tells ≡ true → result ≡ 6
        → Means (word_texts words.now) (λ command. WasUnloadable (partitions_of command)
        (read_of (F.port folder.old)) (K.taken out.old) (K.taken out.new)) }
    ensures loaded { F.tells ≡ true → (command : Command) → IsCommand (word_texts words.now) command
        → ReadsNothingUnfit command (S.left input.old)
        → (refusal : RestartRefusal) → SpeaksOfContent refusal
        → IsRefusedFor (read_of (F.port folder.old)) (partitions_of command) refusal
        → CanRefuseFolder result }
    // Status 8: the line after those that were answered is the first that needs a number which none can have, and
    // that is told.
    ensures spent { F.tells ≡ true → result ≡ 8
        → Means (word_texts words.now) (λ command. WasSpentBy command
        (read_of (F.port folder.old)) (S.left input.old) (K.taken out.old) (K.taken out.new)) }
    // A script with such a line is never played to its end.
    ensures spends { F.tells ≡ true → (limits : Limits)
        → IsCommand (word_texts words.now) (Command.Play limits)
        → WillSpend limits (read_of (F.port folder.old)) (S.left input.old) → CanRefuseNumber result }
{
    let outcome = run(alloc, words, folder, input, out);
    tell(alloc, outcome, out)
}
