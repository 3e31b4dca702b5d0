//! The fields of a line.

ghost use Rattle.std.specs.Prelude.{◌≡◌, ◌≢◌, ◌<◌, ℕ, All, IfSome, IfNone, decimal};
ghost use Rattle.script_text.specs.Fields.{IsCut};

use hr_base::{Partition, read_decimal};

// Cuts bytes at the first place of a byte.
pub(crate) fn cut_at(bytes: &[u8], byte: u8) -> Option<(&[u8], &[u8])>
    ensures cut { IfSome result (λ x. IsCut byte bytes.now x.0.now x.1.now) }
    ensures whole { IfNone result (All (λ b. b ≢ byte) bytes.now) }
{
    for (i, b) in bytes.iter().enumerate() {
        if *b == byte {
            return Some((&bytes[..i], &bytes[i + 1..]));
        }
    }
    None
}

// The partition below the count that a field spells.
pub(crate) fn read_partition(field: &[u8], partitions: u8) -> Option<Partition>
    ensures found { IfSome result (λ p. (p.0 < partitions) × (field.now ≡ decimal p.0)) }
    ensures none { IfNone result ((n : ℕ) → n < partitions → field.now ≡ decimal n → ⊥) }
{
    let number = read_decimal(field)?;
    if number < u64::from(partitions) {
        Some(Partition(number as u8))
    } else {
        None
    }
}
