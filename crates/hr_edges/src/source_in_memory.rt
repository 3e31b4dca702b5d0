//! A source of bytes in memory.

ghost use Rattle.std.specs.Prelude.{◌≡◌, ◌<◌, ◌≤◌, [], Some, IfOk, OnErr, is_err, length, vec_len, drop};

use crate::failure::Failed;
use crate::schedule::Schedule;
use crate::source::Source;

/// Bytes in memory, given one after another, with failures at chosen calls.
#[derive(Drop)]
pub struct MemSource {
    bytes: Vec<u8>,
    at: usize,
    most: usize,
    schedule: Schedule,
    ghost within: { at ≤ vec_len bytes },
    ghost stepping: { 1 ≤ most },
}

impl MemSource {
    /// Gives as many bytes in a call as fit, and fails at the calls that are listed, counted from 1.
    pub fn new(bytes: Vec<u8>, fails: Vec<u64>) -> MemSource
        ensures left { ⟦<MemSource as Source>⟧.left result ≡ Some bytes.items }
        ensures count { ⟦<MemSource as Source>⟧.count result ≡ 0 }
        ensures most { result.most ≡ usize.MAX }
        ensures schedule { result.schedule ≡ record { fails = fails; calls = 0; count = 0 } }
    {
        MemSource::in_steps(bytes, fails, usize::MAX)
    }

    /// The same, but gives no more than so many bytes in a call.
    pub fn in_steps(bytes: Vec<u8>, fails: Vec<u64>, most: usize) -> MemSource
        requires { 1 ≤ most }
        ensures left { ⟦<MemSource as Source>⟧.left result ≡ Some bytes.items }
        ensures count { ⟦<MemSource as Source>⟧.count result ≡ 0 }
        ensures most { result.most ≡ most }
        ensures schedule { result.schedule ≡ record { fails = fails; calls = 0; count = 0 } }
    {
        MemSource {
            bytes,
            at: 0,
            most,
            schedule: Schedule::new(fails),
        }
    }
}

impl Source for MemSource {
    ghost use Rattle.hr_base.specs.Counts.{CountsFault};
    ghost use Rattle.hr_edges.specs.Edges.{GivesFirst};
    ghost use Rattle.hr_edges.specs.Schedules.{after_call, is_due, least};

    ghost left = { λ source. Some (drop source.at source.bytes.items) };

    ghost count = { λ source. source.schedule.count };

    fn read(&mut self, into: &mut [u8]) -> Result<usize, Failed>
        ensures due { is_err result ≡ is_due self.old.schedule }
        ensures amount { IfOk result (λ n. n ≡ least (length into.new)
            (length (drop self.old.at self.old.bytes.items)) self.old.most) }
        ensures schedule { self.new.schedule ≡ after_call (is_err result) self.old.schedule }
        ensures most { self.new.most ≡ self.old.most }
        ensures others { IfOk result (λ n. drop n into.new ≡ drop n into.old) }
        ensures buffer { OnErr result (into.new ≡ into.old) }

        ensures bound { IfOk result (λ n. n ≤ length into.new) }
        ensures given { IfOk result (λ n. GivesFirst (drop self.old.at self.old.bytes.items)
            (Some (drop self.new.at self.new.bytes.items)) n into.new) }
        ensures refused { OnErr result (drop self.new.at self.new.bytes.items
            ≡ drop self.old.at self.old.bytes.items) }
        ensures end { IfOk result
            (λ n. n ≡ 0 → 0 < length into.new → drop self.old.at self.old.bytes.items ≡ []) }
        ensures counted { CountsFault (is_err result)
            self.old.schedule.count self.new.schedule.count }
    {
        if self.schedule.fails_now() {
            return Err(Failed);
        }
        let rest = &self.bytes[self.at..];
        let length = into.len().min(rest.len()).min(self.most);
        into[..length].copy_from_slice(&rest[..length]);
        self.at += length;
        Ok(length)
    }

    fn faults(&self) -> u64 {
        self.schedule.count
    }
}
