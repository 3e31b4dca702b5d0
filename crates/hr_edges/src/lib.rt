//! Where the bytes of a session come from and go to, with their failures.
#![tactic(auto)]

mod failure;
pub mod laws;
mod reading;
mod schedule;
mod sink;
mod sink_in_memory;
mod sink_of_std;
mod source;
mod source_in_memory;
mod source_of_std;
mod unfailing;
mod writing;

pub use failure::Failed;
pub use reading::{InputRefusal, PIECE_LEN, read_all};
pub use sink::Sink;
pub use sink_in_memory::MemSink;
pub use sink_of_std::StdSink;
pub use source::Source;
pub use source_in_memory::MemSource;
pub use source_of_std::StdSource;
pub use unfailing::{EndlessSource, NullSink};
pub use writing::write_all;
