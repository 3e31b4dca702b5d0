//! A sink of bytes in memory.

ghost use Rattle.std.specs.Prelude.{◌≡◌, ◌<◌, ◌≤◌, ◌-◌, ◌++◌, Some, [], IfOk, OnErr, is_err, length, take, vec_len, vec_capacity};

use crate::failure::Failed;
use crate::schedule::Schedule;
use crate::sink::Sink;
use hr_base::Memory;
use std::alloc::Global;

/// Room in memory that bytes are put into one after another, with failures at chosen calls.
#[derive(Drop)]
pub struct MemSink {
    bytes: Vec<u8>,
    room: usize,
    most: usize,
    schedule: Schedule,
    ghost within: { vec_len bytes ≤ room },
    ghost reserved: { room ≤ vec_capacity bytes },
}

impl MemSink {
    /// Takes as many bytes in a call as there is room for, and fails at the calls that are listed, counted from 1.
    /// All memory is asked for here, for `room` bytes.
    pub fn new(alloc: Global, room: usize, fails: Vec<u64>) -> Result<MemSink, Memory>
        ensures taken { IfOk result (λ sink. ⟦<MemSink as Sink>⟧.taken sink ≡ Some []) }
        ensures count { IfOk result (λ sink. ⟦<MemSink as Sink>⟧.count sink ≡ 0) }
        ensures room { IfOk result (λ sink. sink.room ≡ room) }
        ensures most { IfOk result (λ sink. sink.most ≡ usize.MAX) }
        ensures schedule { IfOk result
            (λ sink. sink.schedule ≡ record { fails = fails; calls = 0; count = 0 }) }
    {
        MemSink::in_steps(alloc, room, fails, usize::MAX)
    }

    /// The same, but takes no more than so many bytes in a call.
    pub fn in_steps(
        alloc: Global,
        room: usize,
        fails: Vec<u64>,
        most: usize,
    ) -> Result<MemSink, Memory>
        ensures taken { IfOk result (λ sink. ⟦<MemSink as Sink>⟧.taken sink ≡ Some []) }
        ensures count { IfOk result (λ sink. ⟦<MemSink as Sink>⟧.count sink ≡ 0) }
        ensures room { IfOk result (λ sink. sink.room ≡ room) }
        ensures most { IfOk result (λ sink. sink.most ≡ most) }
        ensures schedule { IfOk result
            (λ sink. sink.schedule ≡ record { fails = fails; calls = 0; count = 0 }) }
    {
        Ok(MemSink {
            bytes: Vec::with_capacity(alloc, room)?,
            room,
            most,
            schedule: Schedule::new(fails),
        })
    }

    /// The bytes that it took.
    pub fn taken(&self) -> &[u8]
        ensures { ⟦<MemSink as Sink>⟧.taken self.now ≡ Some result.now }
    {
        self.bytes.as_slice()
    }
}

impl Sink for MemSink {
    ghost use Rattle.hr_base.specs.Counts.{CountsFault};
    ghost use Rattle.hr_edges.specs.Edges.{is_failed_write, TakesAll, TakesFront};
    ghost use Rattle.hr_edges.specs.Schedules.{after_call, is_due, least};

    ghost taken = { λ sink. Some sink.bytes.items };

    ghost count = { λ sink. sink.schedule.count };

    fn write(&mut self, piece: &[u8]) -> Result<usize, Failed>
        ensures due { is_err result ≡ is_due self.old.schedule }
        ensures amount { IfOk result (λ n. n ≡ least (length piece.now)
            (self.old.room - vec_len self.old.bytes) self.old.most) }
        ensures schedule { self.new.schedule
            ≡ after_call (is_failed_write result piece.now) self.old.schedule }
        ensures room { self.new.room ≡ self.old.room }
        ensures most { self.new.most ≡ self.old.most }

        ensures bound { IfOk result (λ n. n ≤ length piece.now) }
        ensures appended { IfOk result
            (λ n. self.new.bytes.items ≡ self.old.bytes.items ++ take n piece.now) }
        ensures refused { OnErr result (self.new.bytes.items ≡ self.old.bytes.items) }
        ensures counted { CountsFault (is_failed_write result piece.now)
            self.old.schedule.count self.new.schedule.count }
    {
        if self.schedule.fails_now() {
            return Err(Failed);
        }
        let length = piece.len().min(self.room - self.bytes.len()).min(self.most);
        self.bytes.extend_from_slice(&piece[..length]).unwrap();
        if length == 0 && !piece.is_empty() {
            self.schedule.raise();
        }
        Ok(length)
    }

    fn faults(&self) -> u64 {
        self.schedule.count
    }
}
