//! The maps of a folder as text.

ghost use Rattle.std.specs.Prelude.{◌≡◌, ◌≤◌, ◌∷◌, [], ℕ, true, length};
ghost use Rattle.hr_base.specs.Counts.{Rose};
ghost use Rattle.hr_base.specs.Entries.{Entries};
ghost use Rattle.hr_base.specs.LimitRanges.{IsLimits};
ghost use Rattle.dir_files.specs.Images.{read_of};
ghost use Rattle.dir_files.specs.PortStates.{IsAtRest, IsCalm};
ghost use Rattle.crash_law.specs.Restarts.{IsRestartable};
ghost use Rattle.partition_writer.specs.WriterViews.{standing};
ghost use Rattle.script_text.specs.Dumps.{dump_lines, lines_of_maps};
ghost use Rattle.restart_load.specs.declared.ended.Ended.{Ended};
ghost use Rattle.restart_load.specs.Writers.{AreResumed, standings};
ghost use Rattle.store_drill.specs.Dumping.{DumpAt, Dumped, Wrote, lines_of_entries};
ghost use Rattle.store_drill.specs.Sessions.{outside};
ghost use Rattle.store_drill.specs.Writers.{EachFits, HasMaps, HasNumber};

use crate::writers::close_writers;
use bytes::Bytes;
use dir_files::Folder;
use hr_base::{Limits, Partition};
use hr_edges::{Sink, write_all};
use partition_writer::Writer;
use restart_load::{Ended, restart};
use script_text::print_entry;
use std::alloc::Global;

/// Writes the line of an entry, which replaces the text.
fn dump_entry<K: Sink>(
    p: Partition,
    entry: &(u64, Bytes, Bytes),
    text: &mut Vec<u8>,
    out: &mut K,
) -> Ended
    ensures text { DumpAt result (lines_of_entries p.0 (entry.now ∷ [])) (K.taken out.old) (K.taken out.new) }
    ensures sink { result ≡ Ended.Sink → Rose (K.count out.old) (K.count out.new) }
    ensures sink_kept { K.count out.old ≤ K.count out.new }
{
    text.clear();
    let (prefix, key, value) = entry;
    match print_entry(p, *prefix, key.as_slice(), value.as_slice(), text) {
        Ok(()) => match write_all(out, text.as_slice()) {
            Ok(()) => Ended::Whole,
            Err(_) => Ended::Sink,
        },
        Err(_) => Ended::Memory,
    }
}

/// Writes the lines of entries, in order.
fn dump_entries<K: Sink>(
    p: Partition,
    entries: &[(u64, Bytes, Bytes)],
    text: &mut Vec<u8>,
    out: &mut K,
) -> Ended
    ensures text { DumpAt result (lines_of_entries p.0 entries.now) (K.taken out.old) (K.taken out.new) }
    ensures sink { result ≡ Ended.Sink → Rose (K.count out.old) (K.count out.new) }
    ensures sink_kept { K.count out.old ≤ K.count out.new }
{
    for entry in entries {
        match dump_entry(p, entry, text, out) {
            Ended::Whole => {}
            ended => return ended,
        }
    }
    Ended::Whole
}

/// Writes the lines of a writer's maps.
fn dump_writer<F: Folder, K: Sink>(writer: &Writer<F>, text: &mut Vec<u8>, out: &mut K) -> Ended
    ensures text { DumpAt result (lines_of_maps (standing writer.now).partition.0 (standing writer.now).maps) (K.taken out.old) (K.taken out.new) }
    ensures sink { result ≡ Ended.Sink → Rose (K.count out.old) (K.count out.new) }
    ensures sink_kept { K.count out.old ≤ K.count out.new }
{
    match writer.map().entries_sorted() {
        Ok(entries) => dump_entries(writer.partition(), entries.as_slice(), text, out),
        Err(_) => Ended::Memory,
    }
}

/// Writes the lines of all writers' maps, in the order of their partitions.
fn dump_writers<F: Folder, K: Sink>(alloc: Global, writers: &[Writer<F>], out: &mut K) -> Ended
    requires numbers { EachFits HasNumber (standings writers.now) (λ p. p) }
    ensures text { (maps : ℕ → Entries) → EachFits HasMaps (standings writers.now) maps
        → DumpAt result (dump_lines (length writers.now) maps) (K.taken out.old) (K.taken out.new) }
    ensures sink { result ≡ Ended.Sink → Rose (K.count out.old) (K.count out.new) }
    ensures sink_kept { K.count out.old ≤ K.count out.new }
{
    let mut text = Vec::new(alloc);
    for writer in writers {
        match dump_writer(writer, &mut text, out) {
            Ended::Whole => {}
            ended => return ended,
        }
    }
    Ended::Whole
}

/// Writes the maps of a folder that was restarted, and closes the writers.
fn dump_restarted<F: Folder, K: Sink>(
    alloc: Global,
    folder: &mut F,
    out: &mut K,
    writers: Vec<Writer<F>>,
) -> Ended
    requires resumed { AreResumed F.tells (read_of (F.port folder.old)) (standings writers.items) }
    requires restartable { F.tells ≡ true → IsRestartable (read_of (F.port folder.old)) (length writers.items) }
    requires at_rest { F.tells ≡ true → IsAtRest (F.port folder.old) }
    ensures calm { F.tells ≡ true → IsCalm (F.port folder.new) }
    ensures dumped { Dumped F.tells (length writers.items) (outside ⟦<F as Folder>⟧ ⟦<K as Sink>⟧ folder.old out.old)
        (outside ⟦<F as Folder>⟧ ⟦<K as Sink>⟧ folder.new out.new) result }
    ensures sink { result ≡ Ended.Sink → Rose (K.count out.old) (K.count out.new) }
    ensures kept { F.count folder.old ≤ F.count folder.new }
    ensures sink_kept { K.count out.old ≤ K.count out.new }
{
    let ended = dump_writers(alloc, writers.as_slice(), out);
    close_writers(writers, folder);
    ended
}

/// Restarts a folder, and writes the entries of its maps, a line each: by partition, then by the number of the map, then
/// by the bytes of the key. No file's bytes change, and every file is given back.
pub fn dump<F: Folder, K: Sink>(
    alloc: Global,
    limits: &Limits,
    folder: &mut F,
    out: &mut K,
) -> Ended
    requires limits { IsLimits limits.now }
    requires calm { F.tells ≡ true → IsCalm (F.port folder.old) }
    ensures calm { F.tells ≡ true → IsCalm (F.port folder.new) }
    // What was written, and why no more. The bytes of all files stay, for every answer.
    ensures wrote { Wrote F.tells limits.now.partitions (outside ⟦<F as Folder>⟧ ⟦<K as Sink>⟧ folder.old out.old)
        (outside ⟦<F as Folder>⟧ ⟦<K as Sink>⟧ folder.new out.new) result }
    // The disk or the output failed only where its count rose.
    ensures disk { result ≡ Ended.Disk → Rose (F.count folder.old) (F.count folder.new) }
    ensures sink { result ≡ Ended.Sink → Rose (K.count out.old) (K.count out.new) }
    ensures kept { F.count folder.old ≤ F.count folder.new }
    ensures sink_kept { K.count out.old ≤ K.count out.new }
{
    match restart(alloc, folder, limits) {
        Ok(writers) => dump_restarted(alloc, folder, out, writers),
        Err(refusal) => Ended::from(refusal),
    }
}
