//! How often the disk failed, and how it did first.

ghost use Rattle.std.specs.Prelude.{◌≡◌, ◌≤◌, ◌+◌, ◌-◌, ◌^◌, None, true, min, is_none};

use crate::error::DiskError;

/// How often the disk failed at a port, and the first error that it knows of.
#[derive(Debug, Drop)]
pub(crate) struct Faults {
    pub(crate) count: u64,
    pub(crate) first: Option<DiskError>,
    ghost known: { is_none first ≡ true → count ≡ 0 },
}

impl Faults {
    ghost use Rattle.real_folder.specs.Disk.{NotesFault, first_of};

    /// None so far.
    pub(crate) fn none() -> Faults
        ensures count { result.count ≡ 0 }
        ensures first { result.first ≡ None }
    {
        Faults {
            count: 0,
            first: None,
        }
    }

    /// Counts a failure.
    pub(crate) fn note(&mut self, error: DiskError)
        ensures { NotesFault true self.old self.new }
    {
        self.count = self.count.saturating_add(1);
        if self.first.is_none() {
            self.first = Some(error);
        }
    }

    /// Adds those of another port.
    pub(crate) fn adopt(&mut self, other: Faults)
        ensures added { self.new.count ≡ min (self.old.count + other.count) (2 ^ 64 - 1) }
        ensures kept { self.old.count ≤ self.new.count }
        ensures first { self.new.first ≡ first_of self.old.first other.first }
    {
        let Faults { count, first } = other;
        self.count = self.count.saturating_add(count);
        if self.first.is_none() {
            self.first = first;
        }
    }
}
