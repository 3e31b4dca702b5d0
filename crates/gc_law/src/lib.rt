//! What a partition notes, what a collector gathers, and what every crash leaves of both. There is no code
//! here: each law is the contract of a function that does nothing.
#![tactic(auto)]

mod book_laws;
mod noting_laws;
mod small_store;
mod step_laws;
mod telling_laws;
mod union_laws;

pub use book_laws::{a_table_stays_tied, copies_wait_whole, what_is_dead_is_spare};
pub use noting_laws::{
    a_command_tells, a_kept_writer_tells, a_synced_writer_tells, each_kept_record_is_whole,
    each_noted_record_is_safe, the_least_leaves_durable, the_least_stays,
};
pub use small_store::a_small_store_keeps_both;
pub use step_laws::{a_cycle_keeps, hearing_keeps, nothing_heard_is_kept};
pub use telling_laws::{a_telling_grows, what_is_found_opens};
pub use union_laws::{
    a_new_copy_chunk_has_no_event, names_keep_apart, what_a_teller_leaves, what_both_leave,
};
