//! `Records`.

ghost use Rattle.std.specs.Prelude.{◌≡◌};

use record_format::Record;
use std::marker::Model;

/// Records, each with the offset of its first byte.
#[derive(Debug, Drop)]
pub struct Records {
    list: Vec<(u64, Record)>,
}

impl Model for Records {
    ghost use Rattle.std.specs.Prelude.{ℕ, List};
    ghost use Rattle.record_format.specs.declared.record.Record.{Record};

    ghost Value = { List (ℕ × Record) };

    ghost view = { λ r. r.list.items };
}

impl Records {
    /// Of a list, which takes no memory.
    pub(crate) fn of(list: Vec<(u64, Record)>) -> Records
        ensures { result ≡ list.items }
    {
        Records { list }
    }

    /// The records in order, each with its offset.
    pub fn as_slice(&self) -> &[(u64, Record)]
        ensures { result.now ≡ self.now }
    {
        self.list.as_slice()
    }

    /// The records as a list. It takes no memory.
    pub fn into_vec(self) -> Vec<(u64, Record)>
        ensures { result.items ≡ self }
    {
        self.list
    }
}
