//! The text form of keys and values.

ghost use Rattle.std.specs.Prelude.{◌≡◌, ◌≤◌, ◌<◌, ◌*◌, ◌+◌, ◌++◌, ◌↔◌, ℕ, All, IfNone, IfOk, IfSome, IsTrue, List, [], OnOk, codes, length, take, vec_capacity};
ghost use Rattle.std.specs.List.{flat_map};
ghost use Rattle.script_text.specs.Fields.{IsByteAndRest, IsWord, bytes_of, word_bytes};
ghost use Rattle.script_text.specs.Texts.{IsByteString, byte_text, is_plain, text_of, upper_digit};

use std::alloc::AllocError;

// A key or a value as it stands in a line, and the count of its bytes.
#[derive(Clone, Copy)]
pub(crate) struct Word<'a> {
    pub(crate) text: &'a [u8],
    pub(crate) length: usize,
}

// The key or value of at most so many bytes that a field spells.
pub(crate) fn read_word(field: &[u8], limit: usize) -> Option<Word<'_>>
    ensures found { IfSome result (λ word.
        (word.text.now ≡ field.now) × IsWord word × (word.length ≤ limit)) }
    ensures none { IfNone result
        ((bytes : List ℕ) → IsByteString limit bytes → field.now ≡ text_of bytes → ⊥) }
{
    if is_lone_percent(field) {
        return Some(Word {
            text: field,
            length: 0,
        });
    }
    let length = count_bytes(field)?;
    if length > 0 && length <= limit {
        Some(Word {
            text: field,
            length,
        })
    } else {
        None
    }
}

// Whether a field is the text of no bytes.
fn is_lone_percent(field: &[u8]) -> bool
    ensures { IsTrue result ↔ (field.now ≡ codes "%") }
{
    field == b"%".as_slice()
}

// How many bytes a text without a lone percent sign stands for.
fn count_bytes(text: &[u8]) -> Option<usize>
    ensures found { IfSome result (λ n. All (λ b. b < 256) (bytes_of text.now)
        × (text.now ≡ flat_map byte_text (bytes_of text.now)) × (n ≡ length (bytes_of text.now))) }
    ensures none { IfNone result
        ((bytes : List ℕ) → All (λ b. b < 256) bytes → text.now ≡ flat_map byte_text bytes → ⊥) }
{
    if are_plain(text) {
        return Some(text.len());
    }
    let mut count = 0;
    let mut rest = text;
    while !rest.is_empty() {
        rest = first_byte(rest)?.1;
        count += 1;
    }
    Some(count)
}

// The first byte that a text stands for, and the rest of the text.
fn first_byte(text: &[u8]) -> Option<(u8, &[u8])>
    ensures found { IfSome result (λ x. IsByteAndRest text.now x.0 x.1.now) }
    ensures none { IfNone result
        ((byte : ℕ) (rest : List ℕ) → byte < 256 → text.now ≡ byte_text byte ++ rest → ⊥) }
{
    match text {
        [b'%', high, low, rest @ ..] => {
            let escaped = value_of_digit(*high)? * 16 + value_of_digit(*low)?;
            if is_plain(escaped) {
                None
            } else {
                Some((escaped, rest))
            }
        }
        [byte, rest @ ..] if is_plain(*byte) => Some((*byte, rest)),
        _ => None,
    }
}

// The value of an upper-case hexadecimal digit.
fn value_of_digit(digit: u8) -> Option<u8>
    ensures found { IfSome result (λ d. (d < 16) × (digit ≡ upper_digit d)) }
    ensures none { IfNone result ((d : ℕ) → d < 16 → digit ≡ upper_digit d → ⊥) }
{
    match digit {
        b'0'..=b'9' => Some(digit - b'0'),
        b'A'..=b'F' => Some(digit - b'A' + 10),
        _ => None,
    }
}

// The upper-case hexadecimal digit of a value.
fn digit_of(value: u8) -> u8
    requires { value < 16 }
    ensures { result ≡ upper_digit value }
{
    if value < 10 {
        b'0' + value
    } else {
        b'A' + (value - 10)
    }
}

// Whether a byte stands for itself.
fn is_plain(byte: u8) -> bool
    ensures { result ≡ is_plain byte }
{
    byte >= 33 && byte <= 126 && byte != b'%'
}

// Puts the bytes of a key or a value into a buffer that has room for them. Where each stands for itself, they are copied as
// they are.
pub(crate) fn decode(word: Word, out: &mut Vec<u8>)
    requires word { IsWord word }
    requires room { length (word_bytes word) ≤ vec_capacity out.old }
    ensures bytes { out.new.items ≡ word_bytes word.entry }
    ensures room { vec_capacity out.old ≤ vec_capacity out.new }
{
    out.clear();
    if word.length == word.text.len() {
        match out.extend_from_slice(word.text) {
            Ok(()) => {}
            Err(_refused) => unreachable!(),
        }
    } else if word.length > 0 {
        push_bytes(out, word.text);
    }
}

// Appends the bytes that a text without a lone percent sign stands for, for which there is room.
fn push_bytes(out: &mut Vec<u8>, text: &[u8])
    requires each { All (λ b. b < 256) (bytes_of text.now) }
    requires spelled { text.now ≡ flat_map byte_text (bytes_of text.now) }
    requires empty { out.old.items ≡ [] }
    requires room { length (bytes_of text.now) ≤ vec_capacity out.old }
    ensures bytes { out.new.items ≡ bytes_of text.now }
    ensures room { vec_capacity out.old ≤ vec_capacity out.new }
{
    let mut rest = text;
    while let Some((byte, after)) = first_byte(rest) {
        out.push_reserved(byte);
        rest = after;
    }
}

// Appends the text of bytes. What was there before stays.
pub(crate) fn append_text(out: &mut Vec<u8>, bytes: &[u8]) -> Result<(), AllocError>
    ensures ok { OnOk result (out.new.items ≡ out.old.items ++ text_of bytes.now) }
    ensures kept { take (length out.old.items) out.new.items ≡ out.old.items }
{
    if bytes.is_empty() {
        out.push(b'%')?;
        return Ok(());
    }
    if are_plain(bytes) {
        return out.extend_from_slice(bytes);
    }
    for byte in bytes {
        append_byte(out, *byte)?;
    }
    Ok(())
}

// Whether each byte stands for itself. It does not end early, so that many bytes are looked at in one step.
fn are_plain(bytes: &[u8]) -> bool
    ensures { IsTrue result ↔ All (λ b. IsTrue (is_plain b)) bytes.now }
{
    let mut plain = true;
    for byte in bytes {
        plain &= is_plain(*byte);
    }
    plain
}

// Appends the text of one byte. What was there before stays.
fn append_byte(out: &mut Vec<u8>, byte: u8) -> Result<(), AllocError>
    ensures ok { OnOk result (out.new.items ≡ out.old.items ++ byte_text byte) }
    ensures kept { take (length out.old.items) out.new.items ≡ out.old.items }
{
    if is_plain(byte) {
        out.push(byte)?;
        return Ok(());
    }
    out.extend_from_slice(&[b'%', digit_of(byte / 16), digit_of(byte % 16)])
}
