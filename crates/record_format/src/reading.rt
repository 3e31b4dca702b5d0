//! What bytes begin with. The layout is stated in `docs/FORMATS.md`.

ghost use Rattle.std.specs.Prelude.{◌≡◌, ◌↔◌, ◌<◌, ◌≤◌, ◌++◌, ℕ, List, IfNone, IfSome, drop, length};
ghost use Rattle.record_format.specs.declared.record.Record.{Record};
ghost use Rattle.record_format.specs.Spelling.{spelling};
ghost use Rattle.record_format.specs.Splits.{IsDamaged, IsOfClass, IsTorn, SpellsNone};
ghost use Rattle.record_format.specs.Steps.{IfWhole, IsFirstFlaw, IsStep, FitsLimits, SaysDamaged, Shows, record_of, record_with};

use crate::header::{Header, read_header};
use hr_base::{Class, MAX_KEY_LEN, MAX_VALUE_LEN, SEQ_END, Seq};

/// A record whose key and value lie in bytes that were read.
#[derive(Clone, Copy, Debug, PartialEq, Eq)]
pub enum RecordView<'a> {
    /// A key of the map `prefix` was given a value.
    Value {
        seq: Seq,
        prefix: u64,
        key: &'a [u8],
        value: &'a [u8],
    },
    /// A key of the map `prefix` was removed.
    Tomb {
        seq: Seq,
        prefix: u64,
        key: &'a [u8],
    },
    /// All keys of the map `prefix` were removed.
    Clear {
        prefix: u64,
        seq: Seq,
    },
}

/// What a complete header has that no record has.
#[derive(Clone, Copy, Debug, PartialEq, Eq)]
pub enum Flaw {
    /// The number is 0, or at least `SEQ_END`.
    Number(u64),
    /// The key is announced longer than `MAX_KEY_LEN`.
    KeyLength(u32),
    /// The value is announced longer than `MAX_VALUE_LEN`.
    ValueLength(u32),
}

/// What bytes begin with.
#[derive(Clone, Copy, Debug, PartialEq, Eq)]
pub enum Step<'a> {
    /// A record, and how many bytes it has.
    Whole(RecordView<'a>, usize),
    /// Less than a record, as a crash leaves it.
    Torn,
    /// A header that no record has, and the first flaw in it: of the number before the length of
    /// the key, and of that before the length of the value.
    Damaged(Flaw),
}

/// What the bytes of a chunk file of this class begin with, from a place where a record may begin.
pub fn decode<'a>(bytes: &'a [u8], class: Class) -> Step<'a>
    ensures step { IsStep class bytes.now result }
    ensures bound { IfWhole result (λ view count. (0 < count) × (count ≤ length bytes.now)) }
    ensures rest { IfWhole result (λ view count.
        bytes.now ≡ spelling (record_of view) ++ drop count bytes.now) }

    // What was spelled is found again, whatever follows it.
    ensures again { (r : Record) (more : List ℕ)
        → IsOfClass class r → bytes.now ≡ spelling r ++ more → Shows result r }
    ensures torn { (result ≡ Step.Torn) ↔ (SpellsNone class bytes.now × IsTorn class bytes.now) }
    ensures damaged { SaysDamaged result ↔ IsDamaged class bytes.now }
{
    first_step(bytes, class)
}

// The answer of `decode`, case by case.
fn first_step<'a>(bytes: &'a [u8], class: Class) -> Step<'a>
    ensures { IsStep class bytes.now result }
{
    let Some((header, body)) = read_header(bytes, class) else {
        return Step::Torn;
    };
    if let Some(flaw) = first_flaw(&header) {
        return Step::Damaged(flaw);
    }
    let key_len = header.key_len as usize;
    let value_len = header.value_len as usize;
    if body.len() < key_len + value_len {
        return Step::Torn;
    }
    let (key, rest) = body.split_at(key_len);
    let (value, rest) = rest.split_at(value_len);
    let view = view_with(class, Seq(header.seq), header.prefix, key, value);
    Step::Whole(view, bytes.len() - rest.len())
}

// The first of a header's numbers that no record has.
fn first_flaw(header: &Header) -> Option<Flaw>
    ensures found { IfSome result
        (IsFirstFlaw header.now.seq header.now.key_len header.now.value_len) }
    ensures none { IfNone result
        (FitsLimits header.now.seq header.now.key_len header.now.value_len) }
{
    if header.seq == 0 || header.seq >= SEQ_END {
        Some(Flaw::Number(header.seq))
    } else if header.key_len as usize > MAX_KEY_LEN {
        Some(Flaw::KeyLength(header.key_len))
    } else if header.value_len as usize > MAX_VALUE_LEN {
        Some(Flaw::ValueLength(header.value_len))
    } else {
        None
    }
}

// The view of the record of the class with these parts.
fn view_with<'a>(
    class: Class,
    seq: Seq,
    prefix: u64,
    key: &'a [u8],
    value: &'a [u8],
) -> RecordView<'a>
    ensures { record_of result ≡ record_with class seq.0 prefix key.now value.now }
{
    match class {
        Class::Value => RecordView::Value {
            seq,
            prefix,
            key,
            value,
        },
        Class::Tomb => RecordView::Tomb { seq, prefix, key },
        Class::Clear => RecordView::Clear { prefix, seq },
    }
}
