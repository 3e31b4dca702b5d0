//! The order of the records' numbers.

ghost use Rattle.std.specs.Prelude.{◌≡◌, ◌↔◌, IfOk, IsTrue, None, Some};
ghost use Rattle.hr_base.specs.declared.name.Seq.{Seq as Number};
ghost use Rattle.record_format.specs.Spelling.{seq_of};
ghost use Rattle.crash_law.specs.Placed.{records_of};
ghost use Rattle.crash_law.specs.Restarts.{Agree};
ghost use Rattle.record_replay.specs.Orders.{IsOrder, IsNumbered};
ghost use Rattle.record_replay.specs.Replays.{IsFirstClash, facts_in};

use crate::found::Found;
use hr_base::{Memory, Seq};
use record_format::Record;
use std::alloc::Global;

/// The number of a record.
fn seq_of(rec: &Record) -> Seq
    ensures { result.0 ≡ seq_of rec.now }
{
    match rec {
        Record::Value { seq, .. } | Record::Tomb { seq, .. } | Record::Clear { seq, .. } => *seq,
    }
}

/// The number of each record, beside its place.
fn numbered(alloc: Global, list: &[Found]) -> Result<Vec<(u64, usize)>, Memory>
    ensures { IfOk result (λ order. IsNumbered (records_of list.now) order.items) }
{
    let mut order = Vec::with_capacity(alloc, list.len())?;
    for (place, found) in list.iter().enumerate() {
        order.push((seq_of(&found.record).0, place))?;
    }
    Ok(order)
}

/// The numbers in order, each beside the place of its record. Records with one number stay in the order of their places.
pub(crate) fn order_of(alloc: Global, list: &[Found]) -> Result<Vec<(u64, usize)>, Memory>
    ensures { IfOk result (λ order. IsOrder (records_of list.now) order.items) }
{
    let mut order = numbered(alloc, list)?;
    order.sort_unstable();
    Ok(order)
}

/// Whether two records are the same.
fn is_same(one: &Record, other: &Record) -> bool
    ensures { IsTrue result ↔ (one.now ≡ other.now) }
{
    match (one, other) {
        (
            Record::Value {
                seq,
                prefix,
                key,
                value,
            },
            Record::Value {
                seq: other_seq,
                prefix: other_prefix,
                key: other_key,
                value: other_value,
            },
        ) => {
            seq == other_seq && prefix == other_prefix && key == other_key && value == other_value
        }
        (
            Record::Tomb { seq, prefix, key },
            Record::Tomb {
                seq: other_seq,
                prefix: other_prefix,
                key: other_key,
            },
        ) => seq == other_seq && prefix == other_prefix && key == other_key,
        (
            Record::Clear { prefix, seq },
            Record::Clear {
                prefix: other_prefix,
                seq: other_seq,
            },
        ) => prefix == other_prefix && seq == other_seq,
        _ => false,
    }
}

/// The least number that two different records have.
pub(crate) fn first_clash(list: &[Found], order: &[(u64, usize)]) -> Option<Seq>
    requires { IsOrder (records_of list.now) order.now }
    ensures none { (result ≡ None) → Agree (facts_in list.now) }
    ensures some { (seq : Number) → (result ≡ Some seq) → IsFirstClash (facts_in list.now) seq.0 }
{
    for i in 1..order.len() {
        let (number, place) = order[i - 1];
        let (next, other) = order[i];
        let (one, two) = (&list[place], &list[other]);
        if number == next && !is_same(&one.record, &two.record) {
            return Some(Seq(number));
        }
    }
    None
}
