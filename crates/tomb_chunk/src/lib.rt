//! Chunk files of tombstones and of prefix tombstones that are written: filling, full, and sealed. The name of a chunk says
//! its class, so each state is one of `value_chunk`, under a name of its own.
#![tactic(auto)]

pub use value_chunk::{
    Filling as TombFilling, Full as TombFull, NotSealed as TombNotSealed, Sealed as TombSealed,
};
