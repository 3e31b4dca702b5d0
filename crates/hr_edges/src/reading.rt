//! Reading all bytes of a source.

ghost use Rattle.std.specs.Prelude.{◌≡◌, ◌≤◌, IfSome, IfOk, OnOk, IsErrOf, vec_len};
ghost use Rattle.hr_base.specs.Counts.{Rose};
ghost use Rattle.hr_edges.specs.declared.reading.InputRefusal.{InputRefusal};
ghost use Rattle.hr_edges.specs.declared.reading.InputRefusal.TheVariants.{Memory as NoMemory, Failed as InputFailed};
ghost use Rattle.hr_edges.specs.Edges.{IsRead, ReadsAtMost, ReadsTooMuch};

use crate::failure::Failed;
use crate::source::Source;
use std::alloc::{AllocError, Global};
use thiserror::Error;

/// The bytes that are asked for at once.
pub const PIECE_LEN: usize = 65_536;

/// Why the bytes of a source were not read.
#[derive(Clone, Copy, Debug, PartialEq, Eq, Error)]
pub enum InputRefusal {
    /// There was no memory.
    #[error("out of memory")]
    Memory,
    /// There are more bytes than were to be read.
    #[error("the input is too long")]
    TooLong,
    /// The input failed.
    #[error("the input failed")]
    Failed,
}

impl From<AllocError> for InputRefusal {
    ghost from_gives = { λ _ e. e ≡ NoMemory };

    fn from(_refused: AllocError) -> InputRefusal {
        InputRefusal::Memory
    }
}

impl From<Failed> for InputRefusal {
    ghost from_gives = { λ _ e. e ≡ InputFailed };

    fn from(_failed: Failed) -> InputRefusal {
        InputRefusal::Failed
    }
}

/// Reads all bytes of a source, of which there may be `most`. `TooLong` is answered as soon as more came.
pub fn read_all<S: Source>(
    alloc: Global,
    input: &mut S,
    most: usize,
) -> Result<Vec<u8>, InputRefusal>
    ensures short { IfOk result (λ bytes. vec_len bytes ≤ most) }
    ensures found { IfOk result (λ bytes. IfSome (S.left input.old) (λ all. bytes.items ≡ all)) }
    ensures ended { OnOk result (IsRead (S.left input.old) (S.left input.new)) }
    ensures too_long { IsErrOf result InputRefusal.TooLong
        → IfSome (S.left input.old) (λ all. ReadsTooMuch most all (S.left input.new)) }
    ensures few { (IsErrOf result InputRefusal.TooLong → ⊥)
        → IfSome (S.left input.old) (λ all. ReadsAtMost most all (S.left input.new)) }
    ensures fault { IsErrOf result InputRefusal.Failed → Rose (S.count input.old) (S.count input.new) }
    ensures kept { S.count input.old ≤ S.count input.new }
{
    let mut buffer = vec![in alloc; 0u8; PIECE_LEN]?;
    let mut bytes = Vec::new(alloc);
    loop {
        let taken = input.read(buffer.as_mut_slice())?;
        if taken == 0 {
            return Ok(bytes);
        }
        if taken > most - bytes.len() {
            return Err(InputRefusal::TooLong);
        }
        bytes.extend_from_slice(&buffer[..taken])?;
    }
}
