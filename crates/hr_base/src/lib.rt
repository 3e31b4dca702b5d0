//! Names and numbers that every layer of the store speaks of.
#![tactic(auto)]

mod decimal;
pub mod laws;
mod limits;
mod name;
mod text;

pub use decimal::read_decimal;
pub use limits::{
    CHUNK_NO_END, Limits, MAX_CHUNK_LIMIT, MAX_FILE_LEN, MAX_KEY_LEN, MAX_PARTITIONS, MAX_PERCENT,
    MAX_RECORD_LEN, MAX_SCRIPT_LEN, MAX_VALUE_LEN, MIN_CHUNK_LIMIT, Memory, Pick, SEQ_END,
};
pub use name::{ChunkName, ChunkNo, Class, Kind, Named, Partition, Seq, class_of};
pub use text::{print_name, read_name};
