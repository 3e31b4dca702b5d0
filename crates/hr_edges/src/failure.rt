//! The one failure of input and output.

use thiserror::Error;

/// The input or the output failed. What is known of the bytes then stands in the clauses of the call.
#[derive(Clone, Copy, Debug, PartialEq, Eq, Error)]
#[error("the input or output failed")]
pub struct Failed;
