//! One line of a script.

ghost use Rattle.std.specs.Prelude.{◌≡◌, ◌⊎◌, ◌<◌, ◌≤◌, ◌++◌, [], length, None, IfErr};
ghost use Rattle.hr_base.specs.declared.limits.TheConstants.{MAX_KEY_LEN, MAX_VALUE_LEN};
ghost use Rattle.partition_writer.specs.WriterViews.{standing};
ghost use Rattle.script_text.specs.declared.line.Line.{Line};
ghost use Rattle.script_text.specs.declared.line.Mode.TheVariants.{Play};
ghost use Rattle.script_text.specs.Lines.{IsLine, partition_of};
ghost use Rattle.script_text.specs.Replies.{reply_text};
ghost use Rattle.script_text.specs.Scripts.{line_of_view};
ghost use Rattle.store_drill.specs.declared.step.Step.{Step};
ghost use Rattle.store_drill.specs.Playing.{FitsRecord, Plays, PlaysAmong, step_of};
ghost use Rattle.restart_load.specs.Writers.{EachIs, standings};
ghost use Rattle.store_drill.specs.Writers.{IsRunning};

use dir_files::Folder;
use hr_base::Partition;
use partition_writer::{WriteRefusal, Writer};
use script_text::{LineView, Reply, print_reply};

/// What became of a line.
#[derive(Clone, Copy, Debug, PartialEq, Eq)]
pub(crate) enum Step {
    /// It was answered.
    Answered,
    /// It was answered, and there was no memory for its reply.
    NoReply,
    /// There was no memory for it.
    NoMemory,
    /// The disk refused it.
    DiskFailed,
    /// It would need the number `next`, which no record or chunk can have.
    Spent { next: u64 },
}

/// What became of a line that its writer refused.
fn refused(refusal: WriteRefusal) -> Step
    ensures { result ≡ step_of refusal }
{
    match refusal {
        WriteRefusal::Memory => Step::NoMemory,
        WriteRefusal::DiskFault | WriteRefusal::Halted { at: _ } => Step::DiskFailed,
        WriteRefusal::Spent { next } => Step::Spent { next },
    }
}

/// Prints the reply to a line that was answered.
fn reply(reply: &Reply, text: &mut Vec<u8>) -> Step
    ensures only { (result ≡ Step.Answered) ⊎ (result ≡ Step.NoReply) }
    ensures text { result ≡ Step.Answered → text.new.items ≡ text.old.items ++ reply_text reply.now }
{
    match print_reply(reply, text) {
        Ok(()) => Step::Answered,
        Err(_) => Step::NoReply,
    }
}

/// Answers a put.
fn answer_put<F: Folder>(
    writer: &mut Writer<F>,
    p: Partition,
    prefix: u64,
    key: &[u8],
    value: &[u8],
    text: &mut Vec<u8>,
) -> Step
    requires key { length key.now ≤ MAX_KEY_LEN }
    requires value { length value.now ≤ MAX_VALUE_LEN }
    requires running { IsRunning (standing writer.old) }
    requires cleared { text.old.items ≡ [] }
    ensures { Plays F.tells result (Line.Put p prefix key.now value.now) (standing writer.old) (standing writer.new) text.new.items }
{
    match writer.put(prefix, key, value) {
        Ok(None) => reply(&Reply::Absent(p), text),
        Ok(Some(before)) => reply(&Reply::Was(p, before.as_slice()), text),
        Err(refusal) => refused(refusal),
    }
}

/// Answers a removal.
fn answer_remove<F: Folder>(
    writer: &mut Writer<F>,
    p: Partition,
    prefix: u64,
    key: &[u8],
    text: &mut Vec<u8>,
) -> Step
    requires key { length key.now ≤ MAX_KEY_LEN }
    requires running { IsRunning (standing writer.old) }
    requires cleared { text.old.items ≡ [] }
    ensures { Plays F.tells result (Line.Remove p prefix key.now) (standing writer.old) (standing writer.new) text.new.items }
{
    match writer.remove(prefix, key) {
        Ok(None) => reply(&Reply::Absent(p), text),
        Ok(Some(before)) => reply(&Reply::Was(p, before.as_slice()), text),
        Err(refusal) => refused(refusal),
    }
}

/// Answers a clearing.
fn answer_clear<F: Folder>(
    writer: &mut Writer<F>,
    p: Partition,
    prefix: u64,
    text: &mut Vec<u8>,
) -> Step
    requires running { IsRunning (standing writer.old) }
    requires cleared { text.old.items ≡ [] }
    ensures { Plays F.tells result (Line.Clear p prefix) (standing writer.old) (standing writer.new) text.new.items }
{
    match writer.clear(prefix) {
        Ok(count) => reply(&Reply::Cleared(p, count), text),
        Err(refusal) => refused(refusal),
    }
}

/// Answers a get.
fn answer_get<F: Folder>(
    writer: &Writer<F>,
    p: Partition,
    prefix: u64,
    key: &[u8],
    text: &mut Vec<u8>,
) -> Step
    requires cleared { text.old.items ≡ [] }
    ensures { Plays F.tells result (Line.Get p prefix key.now) (standing writer.now) (standing writer.now) text.new.items }
{
    match writer.get(prefix, key) {
        None => reply(&Reply::Absent(p), text),
        Some(value) => reply(&Reply::Is(p, value.as_slice()), text),
    }
}

/// Answers a sync.
fn answer_sync<F: Folder>(writer: &mut Writer<F>, p: Partition, text: &mut Vec<u8>) -> Step
    requires running { IsRunning (standing writer.old) }
    requires cleared { text.old.items ≡ [] }
    ensures { Plays F.tells result (Line.Sync p) (standing writer.old) (standing writer.new) text.new.items }
{
    match writer.sync() {
        Ok(_) => reply(&Reply::Synced(p), text),
        Err(refusal) => refused(refusal),
    }
}

/// Answers a line on the writer of its partition; its reply replaces the text.
fn answer_on<F: Folder>(writer: &mut Writer<F>, line: &LineView, text: &mut Vec<u8>) -> Step
    requires fits { FitsRecord (line_of_view line.now) }
    requires running { IsRunning (standing writer.old) }
    ensures { Plays F.tells result (line_of_view line.now) (standing writer.old) (standing writer.new) text.new.items }
{
    text.clear();
    match line {
        LineView::Put {
            p,
            prefix,
            key,
            value,
        } => answer_put(writer, *p, *prefix, *key, *value, text),
        LineView::Remove { p, prefix, key } => answer_remove(writer, *p, *prefix, *key, text),
        LineView::Clear { p, prefix } => answer_clear(writer, *p, *prefix, text),
        LineView::Get { p, prefix, key } => answer_get(writer, *p, *prefix, *key, text),
        LineView::Sync { p } => answer_sync(writer, *p, text),
    }
}

/// Which writer a line is for, counted from 0.
fn place(line: &LineView) -> usize
    ensures { result ≡ partition_of (line_of_view line.now) }
{
    let p = match line {
        LineView::Put { p, .. }
        | LineView::Remove { p, .. }
        | LineView::Clear { p, .. }
        | LineView::Get { p, .. }
        | LineView::Sync { p } => *p,
    };
    p.0 as usize
}

/// Answers a line, and leaves the writers of all other partitions alone; its reply replaces the text.
pub(crate) fn answer<F: Folder>(
    writers: &mut [Writer<F>],
    line: &LineView,
    text: &mut Vec<u8>,
) -> Step
    requires valid { IsLine Play (length writers.old) (line_of_view line.now) }
    requires running { EachIs IsRunning (standings writers.old) }
    ensures { PlaysAmong F.tells result (line_of_view line.now) (standings writers.old) (standings writers.new) text.new.items }
{
    let at = place(line);
    answer_on(&mut writers[at], line, text)
}
