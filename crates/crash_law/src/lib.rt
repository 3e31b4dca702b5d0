//! Commands and accounts, what a restart makes of facts, and what every crash leaves of an account. There is no code
//! here: each law is the contract of a function that does nothing.
#![tactic(auto)]

mod command_laws;
mod crash_laws;
mod file_laws;
mod growth_laws;
mod writer_laws;

pub use command_laws::{
    empty_tail_fits_itself, last_decides, maps_after_commands, state_of_own_commands,
    what_is_not_written_changes_nothing,
};
pub use crash_laws::{
    a_chunk_leaves_a_front, a_part_stands_by_itself, an_image_restarts_as_itself, one_restart,
    parts_make_a_whole, what_is_kept_fits,
};
pub use file_laws::{held_records_recover, nothing_is_a_base, whole_records_restart};
pub use growth_laws::{
    a_beginning_is_held, a_begun_file_is_held, a_sync_is_held, an_appended_record_is_held,
    what_is_held_but_for_some,
};
pub use writer_laws::{
    a_begun_writer_stands, a_command_stands, a_kept_writer_stands, a_synced_writer_stands,
    each_kept_record_is_whole, each_record_is_durable_after_a_sync, what_a_writer_leaves,
};
