//! Keys and values with bytes of their own.

ghost use Rattle.std.specs.Prelude.{◌≡◌, IfOk};

use bytes::Bytes;
use std::alloc::{AllocError, Global};

/// Copies of a key and a value, which share one block: a block of its own for each would take twice the allocations.
pub fn copied_together(
    alloc: Global,
    key: &[u8],
    value: &[u8],
) -> Result<(Bytes, Bytes), AllocError>
    ensures key { IfOk result (λ copies. copies.0 ≡ key.now) }
    ensures value { IfOk result (λ copies. copies.1 ≡ value.now) }
{
    let mut block = Vec::with_capacity(alloc, key.len() + value.len())?;
    block.extend_from_slice(key)?;
    block.extend_from_slice(value)?;
    let mut rest = Bytes::from_vec(block)?;
    let front = rest.split_to(key.len())?;
    Ok((front, rest))
}
