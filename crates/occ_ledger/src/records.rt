//! Records by number.

ghost use Rattle.std.specs.Prelude.{◌≡◌, ◌≤◌, OnOk, length};
ghost use Rattle.record_format.specs.Spelling.{seq_of};
ghost use Rattle.gc_event.specs.Live.{by_number};
ghost use Rattle.occ_ledger.specs.Scans.{smaller};

use hr_base::Memory;
use record_format::Record;

fn seq_of(rec: &Record) -> u64
    ensures { result ≡ seq_of rec.now }
{
    match rec {
        Record::Value { seq, .. } | Record::Tomb { seq, .. } | Record::Clear { seq, .. } => seq.0,
    }
}

// How many of these have a smaller number, up to the first that has not.
fn count_smaller(records: &[Record], seq: u64) -> usize
    ensures value { result ≡ smaller seq records.now }
    ensures bound { result ≤ length records.now }
{
    for i in 0..records.len() {
        if seq_of(&records[i]) >= seq {
            return i;
        }
    }
    records.len()
}

/// Puts a record among others, before those whose numbers are not smaller.
#[tactic(auto, using(crate::proofs::ScanLaws::inserted))]
pub(crate) fn insert(records: &mut Vec<Record>, rec: Record) -> Result<(), Memory>
    ensures { OnOk result (records.new.items ≡ by_number rec records.old.items) }
{
    let at = count_smaller(records.as_slice(), seq_of(&rec));
    records.insert(at, rec)?;
    Ok(())
}
