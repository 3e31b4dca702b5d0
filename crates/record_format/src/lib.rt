//! Records as bytes.
#![tactic(auto)]

mod copies;
mod header;
mod laws;
mod reading;
mod record;

pub use copies::copied_together;
pub use laws::{
    a_prefix_splits, a_step_stays, damaged_bytes_spell_none, first_record_splits_off,
    no_spelling_begins_another, one_split, one_step, records_are_read_in_turn, some_split,
    some_step, spelling_length, whole_spellings_split,
};
pub use reading::{Flaw, RecordView, Step, decode};
pub use record::{Record, encode};
