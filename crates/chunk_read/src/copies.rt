//! Records with bytes of their own.

ghost use Rattle.std.specs.Prelude.{◌≡◌, IfOk};
ghost use Rattle.record_format.specs.Steps.{record_of};

use bytes::Bytes;
use record_format::{Record, RecordView, copied_together};
use std::alloc::{AllocError, Global};

// The record that a view shows, with copies of its key and value.
pub(crate) fn copied(alloc: Global, view: RecordView<'_>) -> Result<Record, AllocError>
    ensures { IfOk result (λ copy. copy ≡ record_of view.entry) }
{
    match view {
        RecordView::Value {
            seq,
            prefix,
            key,
            value,
        } => {
            let (key, value) = copied_together(alloc, key, value)?;
            Ok(Record::Value {
                seq,
                prefix,
                key,
                value,
            })
        }
        RecordView::Tomb { seq, prefix, key } => Ok(Record::Tomb {
            seq,
            prefix,
            key: Bytes::copy_from_slice(alloc, key)?,
        }),
        RecordView::Clear { prefix, seq } => Ok(Record::Clear { prefix, seq }),
    }
}
