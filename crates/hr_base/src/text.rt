//! The text of a chunk name.

ghost use Rattle.std.specs.Prelude.{◌≡◌, ℕ, ◌+◌, ◌*◌, ◌/◌, ◌%◌, ◌^◌, ◌<◌, ◌≤◌, ◌↔◌, IfSome, IfNone, IsTrue, length, take, drop, slice_index, codes};
ghost use Rattle.hr_base.specs.declared.name.ChunkName.{ChunkName};
ghost use Rattle.hr_base.specs.declared.name.Kind.{Kind};
ghost use Rattle.hr_base.specs.Names.{IsChunkName, name_text, letter_of_kind, hex_digit, hex_digits};

use crate::limits::{CHUNK_NO_END, MAX_PARTITIONS};
use crate::name::{ChunkName, ChunkNo, Kind, Partition};

/// The least number of a chunk.
const FIRST: u64 = 1;

/// The number from which on there are none of a chunk.
const END: u64 = CHUNK_NO_END;

/// The name that a text spells. The form is stated in `docs/FORMATS.md`.
pub fn read_name(text: &[u8]) -> Option<ChunkName>
    ensures found { IfSome result (λ name. IsChunkName name × (text.now ≡ name_text name)) }
    ensures none { IfNone result ((name : ChunkName) → IsChunkName name → text.now ≡ name_text name → ⊥) }
{
    if !is_framed(text) {
        return None;
    }
    let partition = read_partition(text[1], text[2])?;
    let kind = kind_of(text[4])?;
    let number = read_number(&text[6..22])?;
    Some(ChunkName {
        partition: Partition(partition),
        kind,
        number: ChunkNo(number),
    })
}

/// The text of a name.
pub fn print_name(name: ChunkName) -> [u8; 28]
    requires { IsChunkName name }
    ensures { result ≡ name_text name }
{
    let mut text = *b"p00-v-0000000000000000.chunk";
    text[1] = b'0' + name.partition.0 / 10;
    text[2] = b'0' + name.partition.0 % 10;
    text[4] = letter_of(name.kind);
    print_hex(&mut text[6..22], name.number.0);
    text
}

/// Whether a text has the length of a name's, and what each of them has at the same places.
fn is_framed(text: &[u8]) -> bool
    ensures { IsTrue result
        ↔ ((length text.now ≡ 28) × (slice_index text.now 0 ≡ 112) × (slice_index text.now 3 ≡ 45)
        × (slice_index text.now 5 ≡ 45) × (drop 22 text.now ≡ codes ".chunk")) }
{
    if text.len() != 28 {
        return false;
    }
    if text[0] != b'p' || text[3] != b'-' || text[5] != b'-' {
        return false;
    }
    text[22..] == b".chunk"[..]
}

/// The partition that two decimal digits spell.
fn read_partition(high: u8, low: u8) -> Option<u8>
    ensures found { IfSome result (λ n. (n < MAX_PARTITIONS) × (high ≡ 48 + n / 10) × (low ≡ 48 + n % 10)) }
    ensures none { IfNone result ((n : ℕ) → n < MAX_PARTITIONS → high ≡ 48 + n / 10 → low ≡ 48 + n % 10 → ⊥) }
{
    if !high.is_ascii_digit() || !low.is_ascii_digit() {
        return None;
    }
    let partition = (high - b'0') * 10 + (low - b'0');
    if partition < MAX_PARTITIONS {
        Some(partition)
    } else {
        None
    }
}

/// The letter that stands for a kind.
fn letter_of(kind: Kind) -> u8
    ensures { result ≡ letter_of_kind kind }
{
    match kind {
        Kind::V => b'v',
        Kind::T => b't',
        Kind::X => b'x',
        Kind::W => b'w',
        Kind::U => b'u',
        Kind::Y => b'y',
    }
}

/// The kind that a letter stands for.
fn kind_of(letter: u8) -> Option<Kind>
    ensures found { IfSome result (λ kind. letter ≡ letter_of_kind kind) }
    ensures none { IfNone result ((kind : Kind) → letter ≡ letter_of_kind kind → ⊥) }
{
    match letter {
        b'v' => Some(Kind::V),
        b't' => Some(Kind::T),
        b'x' => Some(Kind::X),
        b'w' => Some(Kind::W),
        b'u' => Some(Kind::U),
        b'y' => Some(Kind::Y),
        _ => None,
    }
}

/// The number of a chunk that lower-case hexadecimal digits spell.
fn read_number(digits: &[u8]) -> Option<u64>
    requires { length digits.now ≡ 16 }
    ensures found { IfSome result (λ n. (1 ≤ n) × (n < CHUNK_NO_END)
        × (digits.now ≡ hex_digits (length digits.now) n)) }
    ensures none { IfNone result ((n : ℕ) → 1 ≤ n → n < CHUNK_NO_END
        → digits.now ≡ hex_digits (length digits.now) n → ⊥) }
{
    let number = read_hex(digits)?;
    if FIRST <= number && number < END {
        Some(number)
    } else {
        None
    }
}

/// The number that lower-case hexadecimal digits spell.
fn read_hex(digits: &[u8]) -> Option<u64>
    requires { length digits.now ≤ 16 }
    ensures found { IfSome result (λ n. (n < 16 ^ length digits.now)
        × (digits.now ≡ hex_digits (length digits.now) n)) }
    ensures none { IfNone result ((n : ℕ) → digits.now ≡ hex_digits (length digits.now) n → ⊥) }
{
    let mut number = 0;
    for digit in digits {
        number = number * 16 + u64::from(value_of_digit(*digit)?);
    }
    Some(number)
}

/// The value of a lower-case hexadecimal digit.
fn value_of_digit(digit: u8) -> Option<u8>
    ensures found { IfSome result (λ d. (d < 16) × (digit ≡ hex_digit d)) }
    ensures none { IfNone result ((d : ℕ) → d < 16 → digit ≡ hex_digit d → ⊥) }
{
    match digit {
        b'0'..=b'9' => Some(digit - b'0'),
        b'a'..=b'f' => Some(digit - b'a' + 10),
        _ => None,
    }
}

/// The lower-case hexadecimal digit of a value.
fn digit_of(value: u8) -> u8
    requires { value < 16 }
    ensures { result ≡ hex_digit value }
{
    if value < 10 {
        b'0' + value
    } else {
        b'a' + (value - 10)
    }
}

/// Writes the last hexadecimal digits of a number, as many as there is room for.
fn print_hex(digits: &mut [u8], number: u64)
    ensures { digits.new ≡ hex_digits (length digits.old) number }
{
    let mut rest = number;
    for place in (0..digits.len()).rev() {
        digits[place] = digit_of((rest % 16) as u8);
        rest /= 16;
    }
}
